//! The text of a template: the bridge between the top and Black's stone, and texts that are wrong in one line.

use hx_board::Colour::Black;
use hx_board::Vertex::First;
use hx_board::{Mask, Position, Size, Vertex};
use hx_link::Kind;
use hx_parse::TextFault;
use hx_template_text::{Template, read_template};
use std::alloc::{AllocError, Global};
use std::test::Fail;

/// A claim of Black's about 3 by 3 with his stone on b2, without its ends and its carrier.
const WITH_B2: [&str; 6] = [
    "hextemplate 1",
    "size 3 3",
    "black 00000000000000000000000000001000",
    "white 00000000000000000000000000000000",
    "owner black",
    "kind full",
];

/// The same about 1 by 1 with White's stone on a1.
const WITH_WHITE_A1: [&str; 6] = [
    "hextemplate 1",
    "size 1 1",
    "black 00000000000000000000000000000000",
    "white 00000000000000000000000000000001",
    "owner black",
    "kind full",
];

const ENDS: &str = "ends first b2";

const B1_AND_C1: &str = "carrier 00000000000000000000000000000006";

/// Adds these lines to a text, each with its LF.
fn add_lines(text: &mut Vec<u8>, lines: &[&str]) -> Result<(), AllocError> {
    for line in lines {
        text.extend_from_slice(line.as_bytes())?;
        text.push(b'\n')?;
    }
    Ok(())
}

/// The text of these lines and then of those.
fn text_of(alloc: Global, front: &[&str], more: &[&str]) -> Result<Vec<u8>, AllocError> {
    let mut text = Vec::new(alloc);
    add_lines(&mut text, front)?;
    add_lines(&mut text, more)?;
    Ok(text)
}

/// The line at which the text of these lines and then of those is wrong.
fn fault_of(alloc: Global, front: &[&str], more: &[&str]) -> Result<Option<u64>, AllocError> {
    let text = text_of(alloc, front, more)?;
    match read_template(text.as_slice()) {
        Ok(_) => Ok(None),
        Err(fault) => Ok(Some(fault.line)),
    }
}

#[test]
fn bridge_is_read(rt: HostRuntime) -> Result<(), Fail> {
    let text = text_of(rt.alloc(), &WITH_B2, &[ENDS, B1_AND_C1])?;
    let size = Size::new(3, 3).ok_or("size")?;
    let b2 = size.cell(1, 1).ok_or("b2")?;
    let position = Position::from_masks(size, Mask::of(1 << 12), Mask::empty()).ok_or("position")?;
    let bridge = Template {
        position,
        owner: Black,
        kind: Kind::Full,
        a: First,
        b: Vertex::Of(b2),
        carrier: Mask::of(0b110),
    };
    assert_eq!(rt; read_template(text.as_slice()), Ok(bridge));
    let (_, without_lf) = text.split_last().ok_or("text")?;
    assert_eq!(rt; read_template(without_lf), Err(TextFault { line: 8 }));
    Ok(())
}

#[test]
fn first_wrong_line_is_told(rt: HostRuntime) -> Result<(), Fail> {
    let b2 = "carrier 00000000000000000000000000001000";
    let no_cell = "carrier 00000000000000000000000000000000";
    let alloc = rt.alloc();
    assert_eq!(rt; fault_of(alloc, &WITH_B2, &[ENDS, B1_AND_C1])?, None);
    assert_eq!(rt;
        fault_of(alloc, &WITH_B2, &["ends first first", B1_AND_C1])?,
        Some(7)
    );
    assert_eq!(rt; fault_of(alloc, &WITH_B2, &[ENDS, b2])?, Some(8));
    assert_eq!(rt;
        fault_of(alloc, &WITH_B2, &[ENDS, B1_AND_C1, ENDS])?,
        Some(9)
    );
    assert_eq!(rt;
        fault_of(alloc, &WITH_WHITE_A1, &["ends first a1", no_cell])?,
        Some(7)
    );
    Ok(())
}
