//! Programs that numbers give.
use super::call;
use ibx_base::MemFiles;
use std::test::Fail;

// The program of a number: its status and what it prints, as another implementation gives them.
#[test]
fn runs_the_program_of_a_number(rt: HostRuntime) -> Result<(), Fail> {
    let alloc = rt.alloc();
    let rows = [
        (
            "a body of one word",
            "gen 0 --cycles 65624 --mul fast",
            0,
            "gen 0 4105\nsum 00130089\nE halt 65624 65604\n",
        ),
        (
            "the first steps of a body",
            "gen 5 --mul slow --cycles 100",
            1,
            "gen 5 4105\nsum d575e011\nE budget 100 13\n",
        ),
    ];
    for (name, line, code, text) in rows {
        let shown = call(alloc, line, &mut MemFiles::new(alloc), 0, 0)?;
        assert_eq!(rt; shown.code, code, "the status of {name}");
        assert_eq!(rt; shown.out.bytes(), text.as_bytes(), "the output of {name}");
        assert_eq!(rt; shown.err.bytes().len(), 0, "the error output of {name}");
    }
    Ok(())
}
