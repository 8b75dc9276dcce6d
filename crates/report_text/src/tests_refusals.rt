//! Tests of refusal lines and starved blocks, against the documented format.
use crate::tests::{name_of, sink_of};
use crate::{write_refusal, write_starved};
use cell_model::EditRefusal;
use std::test::Fail;

#[test]
fn each_refusal_has_its_number_and_name(rt: HostRuntime) -> Result<(), Fail> {
    for (refusal, want) in [
        (EditRefusal::BadJson, "line 4 refused E1 BadJson\n"),
        (EditRefusal::BadEdit, "line 4 refused E2 BadEdit\n"),
        (EditRefusal::NoBranch, "line 4 refused E3 NoBranch\n"),
        (EditRefusal::NoVersion, "line 4 refused E4 NoVersion\n"),
        (EditRefusal::NoCell, "line 4 refused E5 NoCell\n"),
        (EditRefusal::BranchTaken, "line 4 refused E6 BranchTaken\n"),
        (EditRefusal::TooMany, "line 4 refused E7 TooMany\n"),
        (EditRefusal::NoFile, "line 4 refused E8 NoFile\n"),
        (EditRefusal::FileTooLong, "line 4 refused E9 FileTooLong\n"),
        (EditRefusal::FileFault, "line 4 refused E10 FileFault\n"),
        (EditRefusal::LineTooLong, "line 4 refused E11 LineTooLong\n"),
    ] {
        let mut sink = sink_of(rt.alloc(), 100, &[])?;
        assert_eq!(rt; write_refusal(rt.alloc(), &mut sink, 4, refusal), Ok(()));
        assert_eq!(rt; sink.written(), want.as_bytes(), "wanted {want}");
    }
    Ok(())
}

#[test]
fn a_starved_block_names_its_cell(rt: HostRuntime) -> Result<(), Fail> {
    let mut sink = sink_of(rt.alloc(), 100, &[])?;
    let branch = name_of("main")?;
    assert_eq!(rt;
        write_starved(rt.alloc(), &mut sink, 1, &branch, 1, 1),
        Ok(())
    );
    let want = "version 1 main\nstarved cell 1 #1\nend 1\n";
    assert_eq!(rt; sink.written(), want.as_bytes());
    Ok(())
}
