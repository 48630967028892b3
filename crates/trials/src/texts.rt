//! What `pairs` prints for one text after the other.
use crate::keeper_report::report_over_a_keeper;
use board::Board;
use feeding::{Boarded, Straight, feed};
use keepers::{Patient, Reader};
use listing::report;
use proposals::{GroupSize, Layer, Proposal};
use std::process::Abort;
use std::test::Fail;

/// A text, and what `pairs` prints for it after the heading.
struct Case {
    text: &'static [u8],
    printed: &'static str,
}

/// Every case of a table prints what it should, fed to a board and fed to a keeper alone.
fn check_cases(rt: &(impl Abort + AllocGlobal), cases: &[Case]) -> Result<(), Fail> {
    for case in cases {
        let out = report(rt.alloc(), case.text)?;
        let mut expected = String::from_str(rt.alloc(), "a;b;saving\n")?;
        expected.push_str(case.printed)?;
        assert_eq!(rt; out, expected);
        let other = report_over_a_keeper(rt.alloc(), case.text)?;
        assert_eq!(rt; other, expected);
    }
    Ok(())
}

#[test]
fn worked_example(rt: HostRuntime) -> Result<(), Fail> {
    check_cases(
        &rt,
        &[Case {
            text: b"act;a;b;saving\nadd;0;1;5\nadd;1;2;9\nadd;3;2;5\noff;2;1;-\n",
            printed: "0;1;5\n2;3;5\n",
        }],
    )
}

#[test]
fn names_lines(rt: HostRuntime) -> Result<(), Fail> {
    check_cases(
        &rt,
        &[
            Case {
                text: b"",
                printed: "stopped;1;0;10\n",
            },
            Case {
                text: b"\n",
                printed: "stopped;1;0;10\n",
            },
            Case {
                text: b"act;a;b;saving",
                printed: "stopped;1;0;10\n",
            },
            Case {
                text: b"act;a;b\n",
                printed: "stopped;1;0;10\n",
            },
            Case {
                text: b"act;a;b;saving;\n",
                printed: "stopped;1;0;10\n",
            },
            Case {
                text: b"act;a;b;b\n",
                printed: "stopped;1;0;10\n",
            },
            Case {
                text: b"act;a;b;savings\n",
                printed: "stopped;1;0;10\n",
            },
            Case {
                text: b"Act;a;b;saving\n",
                printed: "stopped;1;0;10\n",
            },
            Case {
                text: b"act;a;b;saving\n",
                printed: "",
            },
        ],
    )
}

#[test]
fn columns_in_any_order(rt: HostRuntime) -> Result<(), Fail> {
    check_cases(
        &rt,
        &[
            Case {
                text: b"act;a;b;saving\nadd;4;3;8\n",
                printed: "3;4;8\n",
            },
            Case {
                text: b"act;a;saving;b\nadd;4;8;3\n",
                printed: "3;4;8\n",
            },
            Case {
                text: b"act;b;a;saving\nadd;3;4;8\n",
                printed: "3;4;8\n",
            },
            Case {
                text: b"act;b;saving;a\nadd;3;8;4\n",
                printed: "3;4;8\n",
            },
            Case {
                text: b"act;saving;a;b\nadd;8;4;3\n",
                printed: "3;4;8\n",
            },
            Case {
                text: b"act;saving;b;a\nadd;8;3;4\n",
                printed: "3;4;8\n",
            },
            Case {
                text: b"a;act;b;saving\n4;add;3;8\n",
                printed: "3;4;8\n",
            },
            Case {
                text: b"a;act;saving;b\n4;add;8;3\n",
                printed: "3;4;8\n",
            },
            Case {
                text: b"a;b;act;saving\n4;3;add;8\n",
                printed: "3;4;8\n",
            },
            Case {
                text: b"a;b;saving;act\n4;3;8;add\n",
                printed: "3;4;8\n",
            },
            Case {
                text: b"a;saving;act;b\n4;8;add;3\n",
                printed: "3;4;8\n",
            },
            Case {
                text: b"a;saving;b;act\n4;8;3;add\n",
                printed: "3;4;8\n",
            },
            Case {
                text: b"b;act;a;saving\n3;add;4;8\n",
                printed: "3;4;8\n",
            },
            Case {
                text: b"b;act;saving;a\n3;add;8;4\n",
                printed: "3;4;8\n",
            },
            Case {
                text: b"b;a;act;saving\n3;4;add;8\n",
                printed: "3;4;8\n",
            },
            Case {
                text: b"b;a;saving;act\n3;4;8;add\n",
                printed: "3;4;8\n",
            },
            Case {
                text: b"b;saving;act;a\n3;8;add;4\n",
                printed: "3;4;8\n",
            },
            Case {
                text: b"b;saving;a;act\n3;8;4;add\n",
                printed: "3;4;8\n",
            },
            Case {
                text: b"saving;act;a;b\n8;add;4;3\n",
                printed: "3;4;8\n",
            },
            Case {
                text: b"saving;act;b;a\n8;add;3;4\n",
                printed: "3;4;8\n",
            },
            Case {
                text: b"saving;a;act;b\n8;4;add;3\n",
                printed: "3;4;8\n",
            },
            Case {
                text: b"saving;a;b;act\n8;4;3;add\n",
                printed: "3;4;8\n",
            },
            Case {
                text: b"saving;b;act;a\n8;3;add;4\n",
                printed: "3;4;8\n",
            },
            Case {
                text: b"saving;b;a;act\n8;3;4;add\n",
                printed: "3;4;8\n",
            },
        ],
    )
}

#[test]
fn faults_at_their_byte(rt: HostRuntime) -> Result<(), Fail> {
    check_cases(
        &rt,
        &[
            Case {
                text: b"act;a;b;saving\nadd;7;7;3\n",
                printed: "stopped;2;21;2\n",
            },
            Case {
                text: b"act;a;b;saving\noff;7;7;-\n",
                printed: "stopped;2;21;2\n",
            },
            Case {
                text: b"act;a;b;saving\nadd;7;7;0\n",
                printed: "stopped;2;21;2\n",
            },
            Case {
                text: b"act;a;b;saving\nadd;1;2;0\n",
                printed: "stopped;2;23;3\n",
            },
            Case {
                text: b"act;a;b;saving\nadd;1;2;1048576\n",
                printed: "stopped;2;23;3\n",
            },
            Case {
                text: b"act;a;b;saving\nadd;1;2;1048575\n",
                printed: "1;2;1048575\n",
            },
            Case {
                text: b"act;a;b;saving\nadd;256;257;1\n",
                printed: "stopped;2;19;4\n",
            },
            Case {
                text: b"act;a;b;saving\nadd;1;256;1\n",
                printed: "stopped;2;21;4\n",
            },
            Case {
                text: b"act;a;b;saving\noff;256;1;-\n",
                printed: "stopped;2;19;4\n",
            },
            Case {
                text: b"act;a;b;saving\nadd;256;1;0\n",
                printed: "stopped;2;25;3\n",
            },
            Case {
                text: b"act;a;b;saving\nadd;254;255;1\n",
                printed: "254;255;1\n",
            },
            Case {
                text: b"act;a;b;saving\nadd;1;2;5\nadd;2;1;6\n",
                printed: "1;2;5\nstopped;3;25;5\n",
            },
            Case {
                text: b"act;a;b;saving\noff;1;2;-\n",
                printed: "stopped;2;15;7\n",
            },
            Case {
                text: b"act;a;b;saving\nadd;1;2;5",
                printed: "stopped;2;15;11\n",
            },
            Case {
                text: b"act;a;b;saving\nadd;1;2",
                printed: "stopped;2;15;11\n",
            },
            Case {
                text: b"act;a;b;saving\nx",
                printed: "stopped;2;15;11\n",
            },
            Case {
                text: b"act;a;b;saving\n\n",
                printed: "stopped;2;15;12\n",
            },
            Case {
                text: b"act;a;b;saving\nadd;1;2\n",
                printed: "stopped;2;15;12\n",
            },
            Case {
                text: b"act;a;b;saving\nadd;1;2;3;\n",
                printed: "stopped;2;15;12\n",
            },
            Case {
                text: b"act;a;b;saving\nad;1;2;3\n",
                printed: "stopped;2;15;13\n",
            },
            Case {
                text: b"act;a;b;saving\naddd;1;2;3\n",
                printed: "stopped;2;15;13\n",
            },
            Case {
                text: b"act;a;b;saving\nADD;1;2;3\n",
                printed: "stopped;2;15;13\n",
            },
            Case {
                text: b"act;a;b;saving\n;1;2;3\n",
                printed: "stopped;2;15;13\n",
            },
            Case {
                text: b"act;a;b;saving\n7;x;y;z\n",
                printed: "stopped;2;15;13\n",
            },
            Case {
                text: b"act;a;b;saving\nadd;x;2;3\n",
                printed: "stopped;2;19;14\n",
            },
            Case {
                text: b"act;a;b;saving\nadd;1;;3\n",
                printed: "stopped;2;21;14\n",
            },
            Case {
                text: b"act;a;b;saving\nadd;1;2;-\n",
                printed: "stopped;2;23;14\n",
            },
            Case {
                text: b"act;a;b;saving\nadd;-;2;3\n",
                printed: "stopped;2;19;14\n",
            },
            Case {
                text: b"act;a;b;saving\noff;1;2;3\n",
                printed: "stopped;2;23;14\n",
            },
            Case {
                text: b"act;a;b;saving\noff;1;2;\n",
                printed: "stopped;2;23;14\n",
            },
            Case {
                text: b"act;a;b;saving\noff;-;2;-\n",
                printed: "stopped;2;19;14\n",
            },
            Case {
                text: b"act;a;b;saving\nadd;01;2;3\n",
                printed: "stopped;2;19;14\n",
            },
            Case {
                text: b"act;a;b;saving\nadd;00;2;3\n",
                printed: "stopped;2;19;14\n",
            },
            Case {
                text: b"act;a;b;saving\nadd;0;2;3\n",
                printed: "0;2;3\n",
            },
            Case {
                text: b"act;a;b;saving\nadd;1;2;1234567\n",
                printed: "stopped;2;23;3\n",
            },
            Case {
                text: b"act;a;b;saving\nadd;1;2;12345678\n",
                printed: "stopped;2;23;14\n",
            },
            Case {
                text: b"act;a;b;saving\nadd;12345678;2;3\n",
                printed: "stopped;2;19;14\n",
            },
            Case {
                text: b"act;a;b;saving\nadd;1 ;2;3\n",
                printed: "stopped;2;19;14\n",
            },
            Case {
                text: b"act;a;b;saving\nadd;+1;2;3\n",
                printed: "stopped;2;19;14\n",
            },
            Case {
                text: b"act;a;b;saving\nadd;1;2;3\r\n",
                printed: "stopped;2;23;14\n",
            },
            Case {
                text: b"act;a;b;saving\nadd;7;7;x\n",
                printed: "stopped;2;23;14\n",
            },
            Case {
                text: b"saving;b;act;a\nx;y;add;z\n",
                printed: "stopped;2;15;14\n",
            },
            Case {
                text: b"saving;b;act;a\n3;y;add;z\n",
                printed: "stopped;2;17;14\n",
            },
            Case {
                text: b"saving;b;act;a\n3;7;add;7\n",
                printed: "stopped;2;17;2\n",
            },
            Case {
                text: b"saving;b;act;a\n0;6;add;7\n",
                printed: "stopped;2;15;3\n",
            },
            Case {
                text: b"saving;b;act;a\n3;999;add;999\n",
                printed: "stopped;2;17;2\n",
            },
            Case {
                text: b"saving;b;act;a\n3;998;add;999\n",
                printed: "stopped;2;25;4\n",
            },
            Case {
                text: b"saving;b;act;a\n3;998;add;9\n",
                printed: "stopped;2;17;4\n",
            },
            Case {
                text: b"act;a;b;saving\nadd;0;1;1\nadd;2;3;4\noff;0;1;-\nadd;9;9;9\nadd;0;1;1\n",
                printed: "2;3;4\nstopped;5;51;2\n",
            },
        ],
    )
}

/// A text of 32,750 bytes that opens a proposal and then closes and opens it time after time, and so many bytes more.
fn long_text(rt: &HostRuntime, more: usize) -> Result<Vec<u8>, Fail> {
    let mut text = Vec::new(rt.alloc());
    text.extend_from_slice(b"act;a;b;saving\nadd;1;2;999999\n")?;
    for _ in 0..1636 {
        text.extend_from_slice(b"off;1;2;-\nadd;1;2;3\n")?;
    }
    text.resize(text.len().saturating_add(more), b'x')?;
    Ok(text)
}

#[test]
fn longest_text(rt: HostRuntime) -> Result<(), Fail> {
    let text = long_text(&rt, 18)?;
    assert_eq!(rt; text.len(), 32768);
    let out = report(rt.alloc(), &text)?;
    assert!(rt; out.as_str() == "a;b;saving\n1;2;3\nstopped;3275;32750;11\n");
    let other = report_over_a_keeper(rt.alloc(), &text)?;
    assert!(rt; other.as_str() == "a;b;saving\n1;2;3\nstopped;3275;32750;11\n");
    Ok(())
}

#[test]
fn too_long_text(rt: HostRuntime) -> Result<(), Fail> {
    let text = long_text(&rt, 19)?;
    assert_eq!(rt; text.len(), 32769);
    let out = report(rt.alloc(), &text)?;
    assert!(rt; out.as_str() == "a;b;saving\nstopped;1;0;9\n");
    let other = report_over_a_keeper(rt.alloc(), &text)?;
    assert!(rt; other.as_str() == "a;b;saving\nstopped;1;0;9\n");
    Ok(())
}

#[test]
fn every_byte_value(rt: HostRuntime) -> Result<(), Fail> {
    let mut text = Vec::new(rt.alloc());
    text.extend_from_slice(b"act;a;b;saving\nadd;3;4;5\n")?;
    text.extend(0..=255u8)?;
    let out = report(rt.alloc(), &text)?;
    assert!(rt; out.as_str() == "a;b;saving\n3;4;5\nstopped;3;25;12\n");
    let other = report_over_a_keeper(rt.alloc(), &text)?;
    assert!(rt; other.as_str() == "a;b;saving\n3;4;5\nstopped;3;25;12\n");
    Ok(())
}

#[test]
fn full_keeper(rt: HostRuntime) -> Result<(), Fail> {
    let mut table = [Proposal::FILLER; 1];
    let mut keeper = Patient::new(GroupSize::nearest(5), &mut table);
    match feed::<Straight, _>(&mut keeper, b"act;a;b;saving\nadd;0;1;5\nadd;2;3;5\n") {
        Ok(_) => Err(Fail::new("not refused")),
        Err(stop) => {
            assert_eq!(rt; stop.done, 1);
            assert_eq!(rt; stop.line, 3);
            assert_eq!(rt; stop.byte, 25);
            assert_eq!(rt; stop.refusal.number(), 6);
            assert!(rt; matches!(stop.refusal.layer, Layer::Keeper));
            assert_eq!(rt; keeper.open_count(), 1);
            Ok(())
        }
    }
}

#[test]
fn full_keeper_below_a_board(rt: HostRuntime) -> Result<(), Fail> {
    let mut table = [Proposal::FILLER; 1];
    let mut board = Board::open(Patient::new(GroupSize::nearest(5), &mut table));
    match feed::<Boarded, _>(&mut board, b"act;a;b;saving\nadd;0;1;5\nadd;2;3;5\n") {
        Ok(_) => Err(Fail::new("not refused")),
        Err(stop) => {
            assert_eq!(rt; stop.done, 1);
            assert_eq!(rt; stop.line, 3);
            assert_eq!(rt; stop.byte, 25);
            assert_eq!(rt; stop.refusal.number(), 6);
            assert!(rt; matches!(stop.refusal.layer, Layer::Keeper));
            assert_eq!(rt; board.close().open_count(), 1);
            Ok(())
        }
    }
}
