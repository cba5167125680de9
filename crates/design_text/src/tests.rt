//! A text that is read, and the first bad line of others.
use crate::read;
use duct_units::{Fault, ReadError, Reason};
use std::test::Fail;

#[test]
fn a_design_text_gives_its_fields(rt: HostRuntime) -> Result<(), Fail> {
    let text =
        b"design 2\nproject p\nfan f 60 100\nreturn-fan g 5 7\nsupply 60 60\nreturn 0 5\nsection a k 60 500 0\ncost 607\nend\n";
    let fields = read(rt.alloc(), text).ok().ok_or("a design text")?;
    assert_eq!(rt; fields.project.bytes(), b"p".as_slice());
    assert_eq!(rt; fields.sections.as_slice().len(), 1);
    assert_eq!(rt; fields.return_head, 5);
    assert_eq!(rt; fields.total, 607);
    Ok(())
}

#[test]
fn the_first_bad_line_is_named(rt: HostRuntime) {
    let cases = [
        ("", 1),
        ("design 1", 1),
        ("design 3\n", 1),
        ("design 1\n", 2),
        ("design 1\nproject p\r\n", 2),
        ("design 1\nproject p\nnone\nend\n", 3),
        ("design 1\nproject p\nfan f 060 100\n", 3),
        ("design 1\nproject p\nfan f 60 100\nreturn-fan g 5 7\n", 4),
        ("design 2\nproject p\nfan f 60 100\nsupply 60 60\n", 4),
    ];
    for (text, line) in cases {
        let fault = Fault {
            part: duct_units::Part::Line,
            place: line,
            reason: Reason::Form,
        };
        match read(rt.alloc(), text.as_bytes()) {
            Err(ReadError::Refused(found)) => assert_eq!(rt; found, fault, "at {text}"),
            _ => assert!(rt; false, "read {text}"),
        }
    }
}
