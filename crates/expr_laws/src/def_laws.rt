//! What the reader of definitions, declarations and modifiers owes to the grammar, one pair of braces being one item. The functions do nothing; their
//! clauses are the laws.

ghost use Rattle.std.specs.Prelude.{◌≡◌, ◌≤◌, ◌||◌, length, true, List, Some, is_some};
ghost use Rattle.std.specs.List.{All};
ghost use Rattle.std.specs.Str.{IsUtf8};
ghost use Rattle.reading_machines.specs.Laws.{ReadsExactly};
ghost use Rattle.reading_machines.specs.Machines.{run};
ghost use Rattle.positioned_trees.specs.Trees.{max_number};
ghost use Rattle.scan_tokens.specs.Scanned.{scanned};
ghost use Rattle.scan_tokens.specs.Words.{Bytes};
ghost use Rattle.source_grammar.specs.ExpressionTrees.{def_built};
ghost use Rattle.source_grammar.specs.Lexemes.{Lexeme, lexemes};
ghost use Rattle.source_grammar.specs.Spans.{span_of};
ghost use Rattle.source_grammar.specs.Statements.{longest};
ghost use Rattle.source_grammar.specs.Templates.{dcl_tokens};
ghost use Rattle.source_grammar.specs.TemplateTrees.{dcl_built};
ghost use Rattle.def_steps.specs.declared.states.Found.{Found};
ghost use Rattle.def_steps.specs.declared.states.State.{State};
ghost use Rattle.def_steps.specs.Declarations.{declaration_at, is_declaration};
ghost use Rattle.def_steps.specs.Definitions.{definition_at};
ghost use Rattle.def_steps.specs.Modifiers.{mods_at};
ghost use Rattle.expr_laws.specs.Definitions.{AreOfDeclaration, AreOfDefinition, AreOfModifiers, ReadDefItem, Says, def_items_of, definitions_in_lines, is_brace_token, is_level_token, mods_of};
ghost use Rattle.expr_laws.specs.Exactly.{InLines};
ghost use Rattle.expr_laws.specs.Items.{items_tokens};
ghost use Rattle.expr_laws.specs.Pictures.{built_shown};

/// In the tokens of a text each delimiter is one character, so all but its braces are tokens of a level.
pub fn law_delimiters()
    ensures { (text : Bytes) → IsUtf8 text → All (λ x. (is_level_token x || is_brace_token x) ≡ true) (lexemes (scanned text)) }
{}

/// The reader reads exactly the items of the definitions of a block, each with its modifiers. Each list of items has one derivation at
/// most, and the reader has its tree, where there are no more tokens than a tree can count.
pub fn law_definitions()
    ensures exact { ReadsExactly (AreOfDefinition longest) (definitions_in_lines longest) }
    ensures one_def { (is : List (ReadDefItem longest)) (a b : AreOfDefinition longest is) → a.def ≡ b.def }
    ensures one_mods { (is : List (ReadDefItem longest)) (a b : AreOfDefinition longest is) → a.mods ≡ b.mods }
    ensures tree { (is : List (ReadDefItem longest)) (a : AreOfDefinition longest is) (s : InLines State)
        → length (items_tokens (def_items_of longest is)) ≤ max_number → run (definitions_in_lines longest).step is (definitions_in_lines longest).start ≡ Some s
        → definition_at s.state ≡ built_shown (def_built (mods_of a.mods) a.def) }
{}

/// The same reader reads declarations. One is read from its items, and where one can end after these items, they are one. Each list of
/// items has one derivation at most, and the reader has its tree, where there are no more tokens than a tree can count.
pub fn law_declarations()
    ensures complete { (is : List (ReadDefItem longest)) → AreOfDeclaration longest is
        → (s : InLines State) × (run (definitions_in_lines longest).step is (definitions_in_lines longest).start ≡ Some s) × (is_declaration s.state ≡ true) }
    ensures sound { (is : List (ReadDefItem longest)) (s : InLines State)
        → run (definitions_in_lines longest).step is (definitions_in_lines longest).start ≡ Some s → is_declaration s.state ≡ true → AreOfDeclaration longest is }
    ensures one_dcl { (is : List (ReadDefItem longest)) (a b : AreOfDeclaration longest is) → a.dcl ≡ b.dcl }
    ensures one_mods { (is : List (ReadDefItem longest)) (a b : AreOfDeclaration longest is) → a.mods ≡ b.mods }
    ensures tree { (is : List (ReadDefItem longest)) (a : AreOfDeclaration longest is) (s : InLines State)
        → length (items_tokens (def_items_of longest is)) ≤ max_number → run (definitions_in_lines longest).step is (definitions_in_lines longest).start ≡ Some s
        → declaration_at s.state (span_of (dcl_tokens a.dcl)).end ≡ built_shown (dcl_built (mods_of a.mods) a.dcl) }
{}

/// The same reader reads modifiers. They are read from their items, and where they may end before this token, the items are those of
/// modifiers as the grammar asks. Each list of items has one derivation at most.
pub fn law_modifiers()
    ensures complete { (after : Lexeme) (is : List (ReadDefItem longest)) (a : AreOfModifiers longest after is)
        → (s : InLines State) × (found : Found) × (run (definitions_in_lines longest).step is (definitions_in_lines longest).start ≡ Some s)
        × (mods_at s.state.tail s.state.found after.place.before ≡ Some found) × Says a.mods found }
    ensures sound { (after : Lexeme) (is : List (ReadDefItem longest)) (s : InLines State)
        → run (definitions_in_lines longest).step is (definitions_in_lines longest).start ≡ Some s
        → is_some (mods_at s.state.tail s.state.found after.place.before) ≡ true → AreOfModifiers longest after is }
    ensures one { (after : Lexeme) (is : List (ReadDefItem longest)) (a b : AreOfModifiers longest after is) → a.mods ≡ b.mods }
{}
