//! Tests of the rows of texts, worked out by hand from RFC 4180 and the rules of `RowReader`.
use ob_csv::{Row, RowReader, column_names};
use ob_harness::{FULL, Source, Way};
use ob_net::{Fault, Stop};
use std::alloc::Global;
use std::test::Fail;

// The rows of a text, up to nine, each followed by a `;`.
fn shown(alloc: Global, text: &[u8]) -> Result<Vec<u8>, Stop> {
    let mut rows = RowReader::new(alloc, text);
    let mut row = Row::new(alloc);
    let mut out = Vec::new(alloc);
    for _ in 0..9 {
        if !rows.next_row(&mut row)? {
            return Ok(out);
        }
        show(&row, &mut out)?;
        out.push(b';')?;
    }
    Ok(out)
}

// Shows a row with a field for each column by its fields, each in `<>`, an empty one as `.`; any
// other row as `-`.
fn show(row: &Row, out: &mut Vec<u8>) -> Result<(), Stop> {
    match row.fields() {
        Some(fields) => show_all(&fields, out),
        None => Ok(out.push(b'-')?),
    }
}

fn show_all(fields: &[&[u8]], out: &mut Vec<u8>) -> Result<(), Stop> {
    for field in fields {
        show_field(field, out)?;
    }
    Ok(())
}

fn show_field(field: &[u8], out: &mut Vec<u8>) -> Result<(), Stop> {
    if field.is_empty() {
        return Ok(out.push(b'.')?);
    }
    out.push(b'<')?;
    out.extend_from_slice(field)?;
    Ok(out.push(b'>')?)
}

// Texts and their rows: the ends of lines and byte order marks; quotes and other bytes; rows of
// other lengths.
const ROWS: &'static [(&'static [u8], &'static [u8])] = &[
    (b"", b""),
    (b"\xEF\xBB\xBF", b""),
    (b"\n\r\n\r", b""),
    (b",,,,,,a,b\n,,,,,,c,d\n", b"......<a><b>;......<c><d>;"),
    (b",,,,,,a,b\r\n,,,,,,c,d\r\n", b"......<a><b>;......<c><d>;"),
    (b",,,,,,a,b\r,,,,,,c,d\r", b"......<a><b>;......<c><d>;"),
    (
        b"a,,,,,,,b\rc,,,,,,,d\ne,,,,,,,f\r\ng,,,,,,,h",
        b"<a>......<b>;<c>......<d>;<e>......<f>;<g>......<h>;",
    ),
    (b",,,,,,a,b\n,,,,,,c,d", b"......<a><b>;......<c><d>;"),
    (b",,,,,,a,", b"......<a>.;"),
    (b",,,,,,,\n", b"........;"),
    (b"\xEF\xBB\xBFa,,,,,,,\n", b"<a>.......;"),
    (
        b"\xEF\xBB\xBF\xEF\xBB\xBFa,,,,,,,\n",
        b"<\xEF\xBB\xBFa>.......;",
    ),
    (
        b"a,,,,,,,\n\xEF\xBB\xBFb,,,,,,,\n",
        b"<a>.......;<\xEF\xBB\xBFb>.......;",
    ),
    (b"\xEF\xBBa,,,,,,,\n", b"<\xEF\xBBa>.......;"),
    (
        b"\n\n,,,,,,,a\n\r\n\r,,,,,,,b\n\n",
        b".......<a>;.......<b>;",
    ),
    (b",,,,,,,\"\"\n", b"........;"),
    (b",,,,,,,\"\"", b"........;"),
    (b",,,,,,, \n", b".......< >;"),
    (b",,,,,, a , \"b\"\t\n", b"......< a >< \"b\"\t>;"),
    (b",,,,,,\"a\",\"b\"\n", b"......<a><b>;"),
    (b",,,,,,\"a,b\",c\n", b"......<a,b><c>;"),
    (
        b",,,,,\"a\r\nb\",\"c\nd\",\"e\rf\"\n",
        b".....<a\r\nb><c\nd><e\rf>;",
    ),
    (b",,,,,,\"a\"\"b\",\"\"\"\"\n", b"......<a\"b><\">;"),
    (b",,,,,,a\"b\",c\"\"\n", b"......<a\"b\"><c\"\">;"),
    (b",,,,,,a,\"b\nc", b"......<a><b\nc>;"),
    (b",,,,,,a,\"", b"......<a>.;"),
    (b",,,,,,,a\n,,,,,,,\"b,\"\"", b".......<a>;.......<b,\">;"),
    (
        b",,,,,,\xFF\x00,\xC3\n,,,,,,,\x80",
        b"......<\xFF\x00><\xC3>;.......<\x80>;",
    ),
    (b"#a;b\\,c,,,,,,\n", b"<#a;b\\><c>......;"),
    (
        b"switch,R-1,\"a,b\",2,,4, 5,\xFF\r\n",
        b"<switch><R-1><a,b><2>.<4>< 5><\xFF>;",
    ),
    (b"\"\"\n", b"-;"),
    (b"\"\"", b"-;"),
    (b" \n", b"-;"),
    (b"a,\nb\n", b"-;-;"),
    (b"a\n1,2,3,4,5,6,7,8\n", b"-;<1><2><3><4><5><6><7><8>;"),
    (b"a\n1,2,3,4,5,6,7,8,9\n", b"-;-;"),
    (b"1,2,3,4,5,6,7\n1,2,3,4,5,6,7,8,\n", b"-;-;"),
    (b"1,2,3,4,5,6,\"7,8\"\n", b"-;"),
];

#[test]
fn rows_of_texts(rt: HostRuntime) -> Result<(), Fail> {
    for (text, wanted) in ROWS {
        let rows = shown(rt.alloc(), text)?;
        assert!(rt; rows.as_slice() == *wanted);
    }
    Ok(())
}

// Texts, and whether the first row is the header.
const HEADERS: &'static [(&'static [u8], bool)] = &[
    (b"kind,ref,f1,f2,f3,f4,f5,f6\n", true),
    (b"\xEF\xBB\xBF\r\nkind,ref,f1,f2,f3,f4,f5,f6", true),
    (b"\"kind\",\"ref\",f1,f2,f3,f4,f5,\"f6\"\r\n", true),
    (b"", false),
    (b"ref,kind,f1,f2,f3,f4,f5,f6\n", false),
    (b"kind,ref,f1,f2,f3,f4,f6,f5\n", false),
    (b"kind,ref,f1,f2,f3,f4,f5\n", false),
    (b"kind,ref,f1,f2,f3,f4,f5,f6,\n", false),
    (b"kind,ref,f1,f2,f3,f4,f5,f7\n", false),
    (b"Kind,ref,f1,f2,f3,f4,f5,f6\n", false),
    (b"kind, ref,f1,f2,f3,f4,f5,f6\n", false),
];

#[test]
fn headers(rt: HostRuntime) -> Result<(), Fail> {
    for (text, wanted) in HEADERS {
        let mut rows = RowReader::new(rt.alloc(), *text);
        let mut row = Row::new(rt.alloc());
        rows.next_row(&mut row)?;
        assert!(rt; row.is_header() == *wanted);
    }
    Ok(())
}

#[test]
fn columns_have_their_names(rt: HostRuntime) {
    let wanted = ["kind", "ref", "f1", "f2", "f3", "f4", "f5", "f6"];
    for (name, wanted) in column_names().iter().zip(&wanted) {
        assert!(rt; name == wanted);
    }
}

// One by one, and then a failure.
const FAILING: Way = Way { step: 1, ..FULL };

#[test]
fn a_reader_that_fails_gives_no_further_row(rt: HostRuntime) {
    let mut rows = RowReader::new(rt.alloc(), Source::new(b"a,b\nc,d", FAILING));
    let mut row = Row::new(rt.alloc());
    let no_memory = Err(Stop::Fault(Fault::OutOfMemory));
    assert!(rt; rows.next_row(&mut row) == Ok(true));
    assert!(rt; rows.next_row(&mut row) == no_memory);
    assert!(rt; rows.next_row(&mut row) == Ok(false));
    assert!(rt; rows.next_row(&mut row) == Ok(false));
}
