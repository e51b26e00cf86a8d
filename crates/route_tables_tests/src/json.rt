//! The JSON objects that commands print.

use route_tables::access::Decision;
use route_tables::arguments::Format;
use route_tables::commands::printer::Printer;
use std::test::Fail;

/// The objects that the test prints.
const OBJECTS: &str = r#"{"network":"10.0.0.0/8"}
{"address":"10.0.0.1","decision":"allowed","network":"10.0.0.0/8"}
{"address":"::1","decision":"denied","network":"2001:db8:1111:2222:3333:4444:5555:6666/128"}
{"address":"::2","decision":"denied","network":null}
{"first":"10.0.0.0","last":"2001:db8::1"}
{"family":"IPv4","addresses":"16777216"}
{"line":7,"text":"from \"10.0.0.1\"\t�"}
"#;

#[test]
fn objects_are_printed(rt: HostRuntime) -> Result<(), Fail> {
    let alloc = rt.alloc();
    let network = "10.0.0.0/8".parse()?;
    let host = "2001:db8:1111:2222:3333:4444:5555:6666/128".parse()?;
    let mut out = Printer::new(Format::Json, alloc, Vec::new(alloc));
    out.network(&network)?;
    for (address, decision) in [
        ("10.0.0.1", Decision::Allowed(network)),
        ("::1", Decision::Denied(host)),
        ("::2", Decision::Unlisted),
    ] {
        out.decision(address, decision)?;
    }
    out.range("10.0.0.0".parse()?, "2001:db8::1".parse()?)?;
    out.count("IPv4", "16777216")?;
    out.line(7, b"from \"10.0.0.1\"\t\xff")?;
    assert!(rt; out.into_inner().as_slice() == OBJECTS.as_bytes());
    Ok(())
}
