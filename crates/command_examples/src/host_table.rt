ghost use Rattle.std.specs.Prelude.{◌<◌, length};
ghost use Rattle.hosts.specs.Rules.{IsAnswer};
ghost use Rattle.hosts.specs.Standard.{standard_table};

use hosts::{Hosts, standard_answer, standard_table};
use std::test::Fail;

/// Asks that threads may share a value.
fn ask_shared<T: Sync>(_: &T) {}

#[test]
fn standard_functions_answer(rt: HostRuntime) -> Result<(), Fail> {
    let Ok(table) = standard_table(rt.alloc()) else {
        return Err(Fail::new("standard_table"));
    };
    let standard = |number: u32, first: u64, second: u64|
        requires { number < length standard_table.entries }
        ensures { IsAnswer standard_table number first second result }
    { standard_answer(number, first, second) };
    let hosts = Hosts::new(table, Box::new(rt.alloc(), standard)?);
    ask_shared(&hosts);
    assert_eq!(rt; hosts.table().entries.len(), 4);
    let cases = [
        (0, 7, u64::MAX, 7),
        (1, 7, u64::MAX, u64::MAX),
        (2, 255, 0, 8),
        (3, 1, 0, 72_057_594_037_927_936),
    ];
    for (number, first, second, answer) in cases {
        assert_eq!(rt; hosts.call(number, first, second), answer);
    }
    Ok(())
}
