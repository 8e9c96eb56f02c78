//! The files of the runs and their texts, with what is answered of each, worked out by hand.

use pc_terms::NoMemory;

/// The name of a file. No text is ever loaded as `D.scala`.
#[derive(Clone, Copy, Debug, PartialEq, Eq)]
pub enum File {
    A,
    B,
    C,
    D,
}

/// A text that a file may have.
#[derive(Clone, Copy, Debug, PartialEq, Eq)]
pub enum Source {
    Number,
    Words,
    Numbers,
    Longer,
    Empty,
    /// The engine does not read it yet.
    Unread,
}

/// What is known of a text.
#[derive(Clone, Copy)]
pub struct Facts {
    pub file: File,
    pub path: &'static str,
    pub text: &'static str,
    /// What is answered at these offsets, where all loaded texts are read. The runs ask at no others.
    pub trees: &'static [(u32, &'static str)],
}

/// All texts.
pub const SOURCES: [Source; 6] = [
    Source::Number,
    Source::Words,
    Source::Numbers,
    Source::Longer,
    Source::Empty,
    Source::Unread,
];

/// The offsets that the runs ask at.
pub const OFFSETS: [u32; 4] = [0, 15, 19, 30];

// `val x = 1` is 11-20, and `1` is 19-20.
const NUMBER: Facts = Facts {
    file: File::A,
    path: "number.txt",
    text: "object A { val x = 1 }",
    trees: &[
        (0, "tree\tObjectDef\t0-22\t-\tobject A"),
        (15, "tree\tValDef\t11-20\tInt\tval A.x"),
        (19, "tree\tLiteral\t19-20\tInt\t-"),
        (30, "notree"),
    ],
};

// `"s"` is 19-22.
const WORDS: Facts = Facts {
    file: File::A,
    path: "words.txt",
    text: "object A { val x = \"s\" }",
    trees: &[
        (0, "tree\tObjectDef\t0-24\t-\tobject A"),
        (15, "tree\tValDef\t11-22\tString\tval A.x"),
        (19, "tree\tLiteral\t19-22\tString\t-"),
        (30, "notree"),
    ],
};

// `val a = 1` is 11-20, and the last `a` is 30-31.
const NUMBERS: Facts = Facts {
    file: File::B,
    path: "numbers.txt",
    text: "object B { val a = 1; val b = a }",
    trees: &[
        (0, "tree\tObjectDef\t0-33\t-\tobject B"),
        (15, "tree\tValDef\t11-20\tInt\tval B.a"),
        (19, "tree\tLiteral\t19-20\tInt\t-"),
        (30, "tree\tIdent\t30-31\tInt\tval B.a"),
    ],
};

// `"t"` is 19-22, and `val b = a` is 24-33.
const LONGER: Facts = Facts {
    file: File::B,
    path: "longer.txt",
    text: "object B { val a = \"t\"; val b = a }",
    trees: &[
        (0, "tree\tObjectDef\t0-35\t-\tobject B"),
        (15, "tree\tValDef\t11-22\tString\tval B.a"),
        (19, "tree\tLiteral\t19-22\tString\t-"),
        (30, "tree\tValDef\t24-33\tString\tval B.b"),
    ],
};

const EMPTY: Facts = Facts {
    file: File::C,
    path: "empty.txt",
    text: "",
    trees: &[
        (0, "tree\tUnit\t0-0\t-\t-"),
        (15, "notree"),
        (19, "notree"),
        (30, "notree"),
    ],
};

// The first name is that of a later val.
const UNREAD: Facts = Facts {
    file: File::C,
    path: "unread.txt",
    text: "object C { val a = b; val b = 1 }",
    trees: &[],
};

pub fn facts_of(source: Source) -> Facts {
    match source {
        Source::Number => NUMBER,
        Source::Words => WORDS,
        Source::Numbers => NUMBERS,
        Source::Longer => LONGER,
        Source::Empty => EMPTY,
        Source::Unread => UNREAD,
    }
}

pub fn name(file: File) -> &'static str {
    match file {
        File::A => "A.scala",
        File::B => "B.scala",
        File::C => "C.scala",
        File::D => "D.scala",
    }
}

/// The file of this name.
pub fn file_named(wanted: &str) -> Option<File> {
    [File::A, File::B, File::C, File::D]
        .into_iter()
        .find(|file| name(*file) == wanted)
}

/// The loaded texts in load order, after one more is loaded.
pub fn reload(loaded: &mut Vec<Source>, source: Source) -> Result<(), NoMemory> {
    let file = facts_of(source).file;
    for old in loaded.iter_mut() {
        if facts_of(*old).file == file {
            *old = source;
            return Ok(());
        }
    }
    loaded.push(source)?;
    Ok(())
}

pub fn remove(loaded: &mut Vec<Source>, file: File) {
    loaded.retain(|old| facts_of(*old).file != file);
}

/// Whether the engine does not read what is loaded.
pub fn is_unread(loaded: &[Source]) -> bool {
    loaded.contains(&Source::Unread)
}

fn text_of(loaded: &[Source], file: File) -> Option<Facts> {
    for source in loaded {
        let facts = facts_of(*source);
        if facts.file == file {
            return Some(facts);
        }
    }
    None
}

pub fn is_loaded(loaded: &[Source], file: File) -> bool {
    text_of(loaded, file).is_some()
}

/// What is answered of the tree at an offset.
pub fn tree_at(loaded: &[Source], file: File, offset: u32) -> &'static str {
    let Some(facts) = text_of(loaded, file) else {
        return "nounit";
    };
    if is_unread(loaded) {
        return "unread";
    }
    for (place, answer) in facts.trees {
        if *place == offset {
            return answer;
        }
    }
    "not worked out"
}

/// What is answered of the definitions of a file.
pub fn outline_of(loaded: &[Source], file: File) -> &'static str {
    if is_loaded(loaded, file) {
        "unread"
    } else {
        "nounit"
    }
}
