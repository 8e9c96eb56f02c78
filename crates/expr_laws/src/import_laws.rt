//! What the readers of imports and of their selectors owe to the grammar, one pair of braces being one item. The functions do nothing; their
//! clauses are the laws.

ghost use Rattle.std.specs.Prelude.{◌≡◌, List, [], Some};
ghost use Rattle.reading_machines.specs.Laws.{ReadsExactly};
ghost use Rattle.reading_machines.specs.Machines.{run};
ghost use Rattle.source_grammar.specs.DefinitionTrees.{import_tree};
ghost use Rattle.source_grammar.specs.Lexemes.{Lexeme, Place};
ghost use Rattle.parse_parts.specs.Keeping.{kept};
ghost use Rattle.import_steps.specs.declared.imports.Import.{Import};
ghost use Rattle.import_steps.specs.declared.imports.Selectors.{Selectors};
ghost use Rattle.import_steps.specs.Imports as spec;
ghost use Rattle.expr_laws.specs.Imports.{AreOfImport, AreSelectors, ReadImportItem, import_reader, selectors_of, selectors_reader};

/// The reader of selectors reads exactly these, what stands in the braces of an import. The tokens have one derivation at most, and the
/// reader has its selectors.
pub fn law_selectors()
    ensures exact { ReadsExactly AreSelectors selectors_reader }
    ensures one { (xs : List Lexeme) (a b : AreSelectors xs) → a.derivation ≡ b.derivation }
    ensures read { (xs : List Lexeme) (a : AreSelectors xs) (s : Selectors) → run selectors_reader.step xs selectors_reader.start ≡ Some s
        → spec.selectors_at s ≡ Some (selectors_of a.derivation) }
{}

/// The reader of imports reads exactly the items of imports, after their word. Each list of items has one derivation at most, and the
/// reader has its tree.
pub fn law_imports()
    ensures exact { (word : Place) → ReadsExactly (AreOfImport word) (import_reader word) }
    ensures one { (word : Place) (is : List ReadImportItem) (a b : AreOfImport word is) → a.derivation ≡ b.derivation }
    ensures tree { (word : Place) (is : List ReadImportItem) (a : AreOfImport word is) (s : Import)
        → run (import_reader word).step is (import_reader word).start ≡ Some s
        → spec.import_at s ≡ record { tall = kept (import_tree a.derivation); free = [] } }
{}
