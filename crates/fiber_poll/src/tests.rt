//! Which scripts are built.
ghost use Rattle.std.specs.Prelude.{◌≤◌, length};

use super::built;
use script_tree::parse;
use std::alloc::Global;
use std::test::Fail;

/// Whether the script of this text is built.
fn is_built(alloc: Global, text: &[u8]) -> Result<bool, Fail>
    requires { length text.now ≤ 16777216 }
{
    let program = parse(alloc, text)?;
    Ok(built(&program))
}

#[test]
fn every_built_form(rt: HostRuntime) -> Result<(), Fail> {
    let table: [&[u8]; 8] = [
        // what makes entries
        b"picos 1\ncomp c\nfiber f\nsay r0\nyield\nend\nmain\nreturn r2 c r1\ncancel r3 root 9\npeek r4 r5 c\nspawn f r1\nend\n",
        // triggers
        b"picos 1\ntrigger t\ncomp c\nmain\nsignal t\ndetach c t\ndetach root t\nend\n",
        b"picos 1\ntrigger t\ncomp c\nmain\nattach r1 c t\nattach r2 root t\nawait t\nend\n",
        // waits for computations
        b"picos 1\ncomp c\nmain\nwait r1 c\nwait r2 root\nend\n",
        // registers and storage
        b"picos 1\nmain\nset r1 7\nadd r1 1\nsub r1 r2\nmul r1 2\nput 3 r1\nget r2 3\nend\n",
        // blocks
        b"picos 1\nmain\nloop\nif r1 eq 0\nbreak\nelse\nset r1 0\nend\nend\nend\n",
        // cancellation that is seen
        b"picos 1\ncomp c\nmain\nunder c\ncheck\nforbid\ncheck\npermit\ncheck\nunder root\nend\nend\nend\nend\nend\n",
        // raises
        b"picos 1\nmain\ntry\nraise 2\ncatch r1\nsay r1\nend\nend\n",
    ];
    for text in table {
        assert!(rt; is_built(rt.alloc(), text)?, "{:?}", text);
    }
    Ok(())
}

#[test]
fn an_empty_script_is_built(rt: HostRuntime) -> Result<(), Fail> {
    assert!(rt; is_built(rt.alloc(), b"picos 1\nmain\nend\n")?);
    Ok(())
}

#[test]
fn one_form_that_is_not_built(rt: HostRuntime) -> Result<(), Fail> {
    let table: [&[u8]; 10] = [
        // a declared thing that is neither a trigger nor a computation
        b"picos 1\ntrigger t\ncomp c\nmutex m\nmain\nend\n",
        // another statement on a computation
        b"picos 1\ncomp c\nmain\ncancel r1 c 2\nafter 1 c 2\nend\n",
        // a statement, in main or in a fiber's text
        b"picos 1\nmain\nsay 1\nwords r1 2\nend\n",
        b"picos 1\nfiber f\nterminate\nend\nmain\nspawn f 1\nend\n",
        // a statement in a block
        b"picos 1\nmain\nloop\nterminate\nend\nend\n",
        // a promise register
        b"picos 1\nmain\npeek r1 r2 p0\nend\n",
        b"picos 1\nmain\nunder p0\nend\nend\n",
        b"picos 1\ntrigger t\nmain\ndetach p0 t\nend\n",
        b"picos 1\ntrigger t\nmain\nattach r1 p0 t\nend\n",
        b"picos 1\nmain\nwait r1 p0\nend\n",
    ];
    for text in table {
        assert!(rt; !is_built(rt.alloc(), text)?, "{:?}", text);
    }
    Ok(())
}
