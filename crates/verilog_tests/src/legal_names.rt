//! Tests of legal names.
use io_edge::byte_text::Text;
use name_legalise::names::{Names, legal_list};
use std::alloc::{AllocError, Global};
use std::test::Fail;

// a wanted name, and its legal one after those of the rows above
#[derive(Clone, Copy)]
struct Row {
    wanted: &'static str,
    legal: &'static str,
}

const ROWS: [Row; 20] = [
    Row {
        wanted: "a b",
        legal: "a_b",
    },
    Row {
        wanted: "a_b",
        legal: "a_b_0",
    },
    Row {
        wanted: "reg",
        legal: "reg_0",
    },
    Row {
        wanted: "reg",
        legal: "reg_1",
    },
    Row {
        wanted: "reg_0",
        legal: "reg_0_0",
    },
    Row {
        wanted: "",
        legal: "_",
    },
    Row {
        wanted: "-x",
        legal: "_x",
    },
    Row {
        wanted: "$x",
        legal: "_$x",
    },
    Row {
        wanted: "é",
        legal: "__",
    },
    Row {
        wanted: "always",
        legal: "always_0",
    },
    Row {
        wanted: "logic",
        legal: "logic",
    },
    Row {
        wanted: "a",
        legal: "a",
    },
    Row {
        wanted: "a",
        legal: "a_0",
    },
    Row {
        wanted: "a",
        legal: "a_1",
    },
    Row {
        wanted: "A",
        legal: "A",
    },
    Row {
        wanted: "0",
        legal: "_0",
    },
    Row {
        wanted: "_",
        legal: "__0",
    },
    Row {
        wanted: "x.y$",
        legal: "x_y$",
    },
    Row {
        wanted: "Reg",
        legal: "Reg",
    },
    Row {
        wanted: "reg",
        legal: "reg_2",
    },
];

// The 124 reserved words (IEEE 1364-2005, Annex B).
const RESERVED: &str =
    "always and assign automatic begin buf bufif0 bufif1 case casex casez cell cmos config deassign
    default defparam design disable edge else end endcase endconfig endfunction endgenerate endmodule
    endprimitive endspecify endtable endtask event for force forever fork function generate genvar
    highz0 highz1 if ifnone incdir include initial inout input instance integer join large liblist
    library localparam macromodule medium module nand negedge nmos nor noshowcancelled not notif0 notif1
    or output parameter pmos posedge primitive pull0 pull1 pulldown pullup pulsestyle_ondetect
    pulsestyle_onevent rcmos real realtime reg release repeat rnmos rpmos rtran rtranif0 rtranif1
    scalared showcancelled signed small specify specparam strong0 strong1 supply0 supply1 table task
    time tran tranif0 tranif1 tri tri0 tri1 triand trior trireg unsigned use uwire vectored wait wand
    weak0 weak1 while wire wor xnor xor";

// whether a wanted name is added as this one
fn gives(names: &mut Names, wanted: &[u8], name: &[u8]) -> Result<bool, AllocError> {
    if names.len() >= 1_000_000 {
        return Ok(false);
    }
    let id = names.add(wanted)?;
    Ok(names.name(id) == name)
}

// whether each wanted name becomes the row's legal one
fn are_legal(alloc: Global, rows: &[Row]) -> Result<bool, AllocError> {
    let mut names = Names::new(alloc);
    for row in rows {
        if !gives(&mut names, row.wanted.as_bytes(), row.legal.as_bytes())? {
            return Ok(false);
        }
    }
    Ok(true)
}

// the wanted names of the rows, as texts
fn wanted_texts(alloc: Global, rows: &[Row]) -> Result<Vec<Text>, AllocError> {
    let mut texts = Vec::new(alloc);
    for row in rows {
        texts.push(Text::of(alloc, row.wanted.as_bytes())?)?;
    }
    Ok(texts)
}

// whether a list of the rows' wanted names becomes that of their legal ones
fn is_legal_list(alloc: Global, rows: &[Row]) -> Result<bool, AllocError> {
    let wanted = wanted_texts(alloc, rows)?;
    if wanted.len() > 1_000_000 {
        return Ok(false);
    }
    let legal = legal_list(alloc, &wanted)?;
    Ok(
        legal.len() == rows.len()
            && legal
                .iter()
                .zip(rows)
                .all(|(text, row)| text.as_bytes() == row.legal.as_bytes()),
    )
}

// how many of the words between blanks get `_0` after them
fn suffixed_count(alloc: Global, words: &str) -> Result<u64, AllocError> {
    let mut names = Names::new(alloc);
    let mut count = 0u64;
    for word in words.split_whitespace() {
        let expected = format!(in alloc; "{word}_0")?;
        if gives(&mut names, word.as_bytes(), expected.as_bytes())? {
            count = count.saturating_add(1);
        }
    }
    Ok(count)
}

// whether the last of so many equal wishes gets this name
fn last_of_many_gets(
    alloc: Global,
    count: u32,
    wanted: &[u8],
    name: &[u8],
) -> Result<bool, AllocError> {
    let mut names = Names::new(alloc);
    let mut is_last = false;
    for _ in 0..count {
        is_last = gives(&mut names, wanted, name)?;
    }
    Ok(is_last)
}

#[test]
fn names_are_legal(rt: HostRuntime) -> Result<(), Fail> {
    assert!(rt; are_legal(rt.alloc(), &ROWS)?);
    Ok(())
}

#[test]
fn lists_are_legal(rt: HostRuntime) -> Result<(), Fail> {
    assert!(rt; is_legal_list(rt.alloc(), &ROWS)?);
    Ok(())
}

#[test]
fn reserved_words_get_a_suffix(rt: HostRuntime) -> Result<(), Fail> {
    assert!(rt; suffixed_count(rt.alloc(), RESERVED)? == 124);
    Ok(())
}

#[test]
fn a_reserved_word_comes_after_its_suffixed_name(rt: HostRuntime) -> Result<(), Fail> {
    let rows = [
        Row {
            wanted: "wire_0",
            legal: "wire_0",
        },
        Row {
            wanted: "wire",
            legal: "wire_1",
        },
    ];
    assert!(rt; are_legal(rt.alloc(), &rows)?);
    Ok(())
}

#[test]
fn equal_wishes_take_linear_time(rt: HostRuntime) -> Result<(), Fail> {
    let alloc = rt.alloc();
    assert!(rt; last_of_many_gets(alloc, 200_000, b"a".as_slice(), b"a_199998".as_slice())?);
    assert!(rt; last_of_many_gets(alloc, 10_000, b"reg".as_slice(), b"reg_9999".as_slice())?);
    Ok(())
}
