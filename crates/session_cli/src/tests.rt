use crate::program::start;
use crate::status::Status;
use q_io::{MemSink, MemSource};
use std::alloc::{AllocError, Global};
use std::test::Fail;

// Runs the bytes as a script in pieces of five bytes, where the calls in `reads` and `writes` fail.
fn run(
    alloc: Global,
    words: &[&str],
    script: &[u8],
    reads: Vec<u64>,
    writes: Vec<u64>,
) -> Result<(Status, Vec<u8>), AllocError> {
    let mut texts = Vec::new(alloc);
    for word in words {
        texts.push(String::from_str(alloc, word)?)?;
    }
    let mut source = MemSource::new(Vec::from_slice(alloc, script)?, 5, reads);
    let mut sink = MemSink::new(vec![in alloc; 0; 400]?, 5, writes);
    let status = start(alloc, texts.as_slice(), &mut source, &mut sink);
    let written = Vec::from_slice(alloc, sink.bytes())?;
    Ok((status, written))
}

const ROWS: [(&str, &str); 6] = [
    ("", ""),
    (
        "PREPARE p AS SELECT 7; EXECUTE p",
        "PREPARE\n?column?\n7\n(1 row)\n",
    ),
    (
        "PREPARE p AS SELECT 7; PREPARE p AS SELECT 8; EXECUTE q; EXECUTE p;",
        "PREPARE\nERROR:  42P05: prepared statement \"p\" already exists\nERROR:  26000: prepared statement \"q\" does not exist\n?column?\n7\n(1 row)\n",
    ),
    (
        "prepare P as select 007 -- ;\n/* ; /* ; */ */; execute \"p\"",
        "PREPARE\n?column?\n7\n(1 row)\n",
    ),
    (
        "PREPARE p AS SELECT 9223372036854775808; EXECUTE p",
        "ERROR:  22003: bigint out of range\nERROR:  26000: prepared statement \"p\" does not exist\n",
    ),
    (
        "PREPARE select AS SELECT 7; EXECUTE 'p'; EXECUTE",
        "ERROR:  42601: syntax error\nERROR:  42601: syntax error\nERROR:  42601: syntax error\n",
    ),
];

#[test]
fn answers_scripts(rt: HostRuntime) -> Result<(), Fail> {
    let alloc = rt.alloc();
    for (script, output) in ROWS {
        let (status, written) = run(
            alloc,
            &[],
            script.as_bytes(),
            Vec::new(alloc),
            Vec::new(alloc),
        )?;
        assert_eq!(rt; status, Status::Done);
        assert_eq!(rt; written.as_slice(), output.as_bytes());
    }
    Ok(())
}

const PREPARED: &str = "PREPARE p AS SELECT 7; EXECUTE p;";

const OUTPUT: &[u8] = b"PREPARE\n?column?\n7\n(1 row)\n";

// The 33 bytes of the script hold whole commands after 22 and after 33 of them.
#[test]
fn ends_at_a_fault(rt: HostRuntime) -> Result<(), Fail> {
    let alloc = rt.alloc();
    for call in 0..8 {
        let reads = vec![in alloc; call]?;
        let (status, written) = run(alloc, &[], PREPARED.as_bytes(), reads, Vec::new(alloc))?;
        let whole = match call {
            0..=4 => 0,
            5..=6 => 8,
            _ => OUTPUT.len(),
        };
        assert_eq!(rt; status, Status::ReadFault);
        assert_eq!(rt; written.len(), whole);
        assert!(rt; OUTPUT.starts_with(written.as_slice()));
    }
    for call in 0..6 {
        let writes = vec![in alloc; call]?;
        let (status, written) = run(alloc, &[], PREPARED.as_bytes(), Vec::new(alloc), writes)?;
        assert_eq!(rt; status, Status::WriteFault);
        assert!(rt; OUTPUT.starts_with(written.as_slice()));
    }
    Ok(())
}

const SCRIPT: &str = "PREPARE p AS SELECT 7; EXECUTE q; EXECUTE p;";

const REFUSED: &str = "PREPARE\nERROR:  26000: prepared statement \"q\" does not exist\n";

#[test]
fn takes_words(rt: HostRuntime) -> Result<(), Fail> {
    let alloc = rt.alloc();
    let stopped = run(
        alloc,
        &["--mode", "force_custom_plan", "--stop"],
        SCRIPT.as_bytes(),
        Vec::new(alloc),
        Vec::new(alloc),
    )?;
    assert_eq!(rt; stopped.0, Status::Stopped);
    assert_eq!(rt; stopped.1.as_slice(), REFUSED.as_bytes());
    let went_on = run(
        alloc,
        &["--mode", "auto"],
        SCRIPT.as_bytes(),
        Vec::new(alloc),
        Vec::new(alloc),
    )?;
    assert_eq!(rt; went_on.0, Status::Done);
    let wild = run(
        alloc,
        &["--mode", "wild"],
        SCRIPT.as_bytes(),
        Vec::new(alloc),
        Vec::new(alloc),
    )?;
    assert_eq!(rt; wild.0, Status::Usage);
    assert_eq!(rt; wild.1.len(), 0);
    for word in ["--make", "--help", "-h", "stop", "--stop=1", "--mode"] {
        let refused = run(
            alloc,
            &[word],
            SCRIPT.as_bytes(),
            Vec::new(alloc),
            Vec::new(alloc),
        )?;
        assert_eq!(rt; refused.0, Status::Usage);
    }
    let twice = run(
        alloc,
        &["--stop", "--stop"],
        SCRIPT.as_bytes(),
        Vec::new(alloc),
        Vec::new(alloc),
    )?;
    assert_eq!(rt; twice.0, Status::Usage);
    let make = run(
        alloc,
        &["--make", "7"],
        SCRIPT.as_bytes(),
        Vec::new(alloc),
        Vec::new(alloc),
    )?;
    assert_eq!(rt; make.0, Status::Usage);
    Ok(())
}

// A command of the greatest length is read, and of one byte more is not.
#[test]
fn judges_commands(rt: HostRuntime) -> Result<(), Fail> {
    let alloc = rt.alloc();
    let mut script = vec![in alloc; b' '; 1_048_576]?;
    script.push(b';')?;
    let (status, written) = run(
        alloc,
        &[],
        script.as_slice(),
        Vec::new(alloc),
        Vec::new(alloc),
    )?;
    assert_eq!(rt; status, Status::Done);
    assert_eq!(rt; written.len(), 0);
    let longer = vec![in alloc; b' '; 1_048_577]?;
    let (status, written) = run(
        alloc,
        &[],
        longer.as_slice(),
        Vec::new(alloc),
        Vec::new(alloc),
    )?;
    assert_eq!(rt; status, Status::TooLong);
    assert_eq!(rt; written.len(), 0);
    let bad = run(
        alloc,
        &[],
        b"PREPARE p AS SELECT 7;EXECUTE p;SELECT\xff;",
        Vec::new(alloc),
        Vec::new(alloc),
    )?;
    assert_eq!(rt; bad.0, Status::NotText);
    assert_eq!(rt; bad.1.as_slice(), OUTPUT);
    Ok(())
}
