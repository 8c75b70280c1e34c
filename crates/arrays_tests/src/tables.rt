use directory::{listing, table_named};
use std::test::Fail;

// Two tables, laid out by hand; the second tag has a byte that is not printed as itself.
const FONT: [u8; 44] = [
    0, 1, 0, 0, 0, 2, 0, 32, 0, 1, 0, 0, // version, two tables
    b'c', b'm', b'a', b'p', 0x1C, 0x2D, 0x3E, 0x4F, 0, 0, 0, 44, 0, 0, 0, 16, //
    b'c', b'v', b't', 0x7F, 0x5F, 0x0F, 0x3C, 0xF5, 0, 0, 1, 0, 0, 0, 0, 54,
];

#[test]
fn a_directory_as_text(rt: HostRuntime) -> Result<(), Fail> {
    let text = listing(rt.alloc(), &FONT)?;
    assert_eq!(rt;
        text.as_str(),
        "0x00010000 2 tables\ncmap 1c2d3e4f 44 16\ncvt\\x7f 5f0f3cf5 256 54\n"
    );
    let cut = listing(rt.alloc(), &FONT[0..43])?;
    assert_eq!(rt; cut.as_str(), "refused BadEof 1\n");
    let none = listing(rt.alloc(), &[])?;
    assert_eq!(rt; none.as_str(), "refused BadEof 1\n");
    Ok(())
}

#[test]
fn a_table_by_its_tag(rt: HostRuntime) -> Result<(), Fail> {
    let found = table_named(rt.alloc(), &FONT, b"cmap")?;
    assert_eq!(rt; found.as_str(), "cmap 1c2d3e4f 44 16\n");
    let absent = table_named(rt.alloc(), &FONT, b"cvt")?;
    assert_eq!(rt; absent.as_str(), "none\n");
    let long = table_named(rt.alloc(), &FONT, b"cmaps")?;
    assert_eq!(rt; long.as_str(), "none\n");
    let cut = table_named(rt.alloc(), &FONT[0..11], b"cmap")?;
    assert_eq!(rt; cut.as_str(), "refused BadEof 1\n");
    Ok(())
}
