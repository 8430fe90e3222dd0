//! The words that are no names in Verilog (IEEE 1364-2005, Annex B).
ghost use Rattle.std.specs.Prelude.{◌≡◌, map, IsTrue};
ghost use Rattle.verilog_model.specs.Checks.{contains_name};
ghost use Rattle.verilog_model.specs.Reserved.{reserved_words};
ghost use Rattle.name_legalise.specs.Words.{all_begin, begins_with, groups_begin, words_in};
ghost use Rattle.name_legalise.specs.WordViews.{letter_group};

/// The reserved words that begin with one letter.
pub struct Group {
    /// Their first byte.
    pub letter: u8,
    /// The words, in the order of bytes.
    pub words: &'static [&'static str],
}

pub(crate) const RESERVED: [Group; 22] = [
    Group {
        letter: b'a',
        words: &["always", "and", "assign", "automatic"],
    },
    Group {
        letter: b'b',
        words: &["begin", "buf", "bufif0", "bufif1"],
    },
    Group {
        letter: b'c',
        words: &["case", "casex", "casez", "cell", "cmos", "config"],
    },
    Group {
        letter: b'd',
        words: &["deassign", "default", "defparam", "design", "disable"],
    },
    Group {
        letter: b'e',
        words: &[
            "edge",
            "else",
            "end",
            "endcase",
            "endconfig",
            "endfunction",
            "endgenerate",
            "endmodule",
            "endprimitive",
            "endspecify",
            "endtable",
            "endtask",
            "event",
        ],
    },
    Group {
        letter: b'f',
        words: &["for", "force", "forever", "fork", "function"],
    },
    Group {
        letter: b'g',
        words: &["generate", "genvar"],
    },
    Group {
        letter: b'h',
        words: &["highz0", "highz1"],
    },
    Group {
        letter: b'i',
        words: &[
            "if", "ifnone", "incdir", "include", "initial", "inout", "input", "instance", "integer",
        ],
    },
    Group {
        letter: b'j',
        words: &["join"],
    },
    Group {
        letter: b'l',
        words: &["large", "liblist", "library", "localparam"],
    },
    Group {
        letter: b'm',
        words: &["macromodule", "medium", "module"],
    },
    Group {
        letter: b'n',
        words: &[
            "nand",
            "negedge",
            "nmos",
            "nor",
            "noshowcancelled",
            "not",
            "notif0",
            "notif1",
        ],
    },
    Group {
        letter: b'o',
        words: &["or", "output"],
    },
    Group {
        letter: b'p',
        words: &[
            "parameter",
            "pmos",
            "posedge",
            "primitive",
            "pull0",
            "pull1",
            "pulldown",
            "pullup",
            "pulsestyle_ondetect",
            "pulsestyle_onevent",
        ],
    },
    Group {
        letter: b'r',
        words: &[
            "rcmos", "real", "realtime", "reg", "release", "repeat", "rnmos", "rpmos", "rtran",
            "rtranif0", "rtranif1",
        ],
    },
    Group {
        letter: b's',
        words: &[
            "scalared",
            "showcancelled",
            "signed",
            "small",
            "specify",
            "specparam",
            "strong0",
            "strong1",
            "supply0",
            "supply1",
        ],
    },
    Group {
        letter: b't',
        words: &[
            "table", "task", "time", "tran", "tranif0", "tranif1", "tri", "tri0", "tri1", "triand",
            "trior", "trireg",
        ],
    },
    Group {
        letter: b'u',
        words: &["unsigned", "use", "uwire"],
    },
    Group {
        letter: b'v',
        words: &["vectored"],
    },
    Group {
        letter: b'w',
        words: &["wait", "wand", "weak0", "weak1", "while", "wire", "wor"],
    },
    Group {
        letter: b'x',
        words: &["xnor", "xor"],
    },
];

/// Whether a name is one of some words.
fn is_among(name: &[u8], words: &[&str]) -> bool
    ensures { result ≡ contains_name name.now (map (λ w. w.now) words.now) }
{
    for word in words {
        if word.as_bytes() == name {
            return true;
        }
    }
    false
}

/// Whether a name that begins with a byte is one of the words of a group.
fn is_in_group(first: u8, name: &[u8], group: &Group) -> bool
    requires grouped { IsTrue (all_begin group.now.letter (letter_group group.now).words) }
    requires begins { IsTrue (begins_with first name.now) }
    ensures { result ≡ contains_name name.now (letter_group group.now).words }
{
    group.letter == first && is_among(name, group.words)
}

/// Whether a name that begins with a byte is one of the words of some groups.
fn is_grouped(first: u8, name: &[u8], groups: &[Group]) -> bool
    requires grouped { IsTrue (groups_begin (map letter_group groups.now)) }
    requires begins { IsTrue (begins_with first name.now) }
    ensures { result ≡ contains_name name.now (words_in (map letter_group groups.now)) }
{
    for group in groups {
        if is_in_group(first, name, group) {
            return true;
        }
    }
    false
}

/// Whether a name is a reserved word. It looks at the words with its first letter alone.
#[tactic(auto, unfolding(verilog_model::specs::Reserved::reserved_words))]
pub fn is_reserved(name: &[u8]) -> bool
    ensures { result ≡ contains_name name.now reserved_words }
{
    match name {
        [first, ..] => is_grouped(*first, name, &RESERVED),
        [] => false,
    }
}
