//! The text of an answer, and the line at which other bytes are refused.

use answer_text::{AnswerFault, read_answer, write_answer};
use base_kit::Duplicate;
use std::test::Fail;

/// Texts that are read, and written again.
const READ: [&str; 3] = [
    "tiresias answer 1\noptimal -9223372036854775808\nprogram 0 0 0\nworld h 1 11\nid,qty\n1,4\n\
    part 1 columns 0 7\nbest 4\nsplit 0 -3 plain\nfixed\nfixed\nend\n",
    "tiresias answer 1\nunfinished 30\nprogram 0 0 4294967295\npart 1 columns\n\
    best -170141183460469231731687303715884105727\nopen\nend\n",
    "tiresias answer 1\nimpossible\nprogram 0 0 0\nrow 0\nend\n",
];

/// Texts that are no answer, with the line at fault.
const REFUSED: [(&str, u32); 5] = [
    ("", 1),
    ("tiresias answer 1\noptimal -0\n", 2),
    (
        "tiresias answer 1\noptimal 0\nprogram 0 0 0\nworld h 0 9\na\nb\n",
        7,
    ),
    (
        "tiresias answer 1\nunfinished 0\nprogram 0 0 0\npart 1 columns 1 1\nbest none\nfixed\nend\n",
        4,
    ),
    ("tiresias answer 1\nunfinished 0\nprogram 0 0 0\nend", 4),
];

#[test]
fn reads_what_is_written(rt: HostRuntime) -> Result<(), Fail> {
    let alloc = rt.alloc();
    for text in READ {
        assert!(rt; text.len() < 1000);
        let answer = read_answer(alloc, text.as_bytes())?.copy(alloc)?;
        let again = write_answer(alloc, &answer)?;
        assert_eq!(rt; again.as_slice(), text.as_bytes(), "of {text}");
    }
    Ok(())
}

#[test]
fn refuses_the_line_at_fault(rt: HostRuntime) {
    for (text, line) in REFUSED {
        assert!(rt; text.len() < 1000);
        match read_answer(rt.alloc(), text.as_bytes()) {
            Err(AnswerFault::BadAnswer { line: told }) => assert_eq!(rt; told, line, "of {text}"),
            _ => panic!(rt; "{text}"),
        }
    }
}
