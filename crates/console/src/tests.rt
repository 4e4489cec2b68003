// That a script can be played, with memory enough: what no clause says.
use crate::session::Session;
use answers::Answer;
use script::{Grammar, Questions, Stage};
use std::io::BufWriter;
use std::test::Fail;

#[test]
fn reads_lines(rt: HostRuntime) {
    let heap = rt.alloc();
    assert!(rt; matches!(Questions.read(heap, b"snn x"), Ok(Some(_))));
    assert!(rt; matches!(Questions.read(heap, b"# nothing"), Ok(None)));
    assert!(rt; matches!(Questions.read(heap, b"clear"), Err(_)));
    assert!(rt; matches!(Stage::NoRows.read(heap, b"clear"), Ok(Some(_))));
}

#[test]
fn plays_a_script(rt: HostRuntime) -> Result<(), Fail> {
    let heap = rt.alloc();
    let lines: &[u8] = b"snn x\nclear\nsnn y\n";
    let out = BufWriter::new(heap, Vec::new(heap))?;
    let mut session = Session::new(heap, lines, out);
    assert!(rt; session.next(&Questions)?.is_some());
    assert!(rt; session.next(&Questions)?.is_some());
    assert!(rt; session.next(&Questions)?.is_none());
    session.say(&Answer::Cleared)?;
    assert_eq!(rt; session.finish()?, false);
    Ok(())
}
