//! A table of host functions, with the closure that answers for them and what is known of its answers.
ghost use Rattle.std.specs.Prelude.{◌≡◌, ◌<◌, ◌^◌, length};
ghost use Rattle.std.specs.List.{IsDistinct-prop};
ghost use Rattle.std.specs.Str.{bytes_eq};
ghost use Rattle.hosts.specs.Rules.{MayBeAsked, MeetsRules, IsAnswer, HaveOwnNames, meets_rules_once};
ghost use Rattle.ir_ast.specs.Numbers.{host_names};

use ir_ast::HostTable;

/// A closure that is handed the number of a host function and two words, and gives the function's answer.
pub type Answerer = Box<dyn Fn(u32, u64, u64) -> u64 + Sync + Drop>;

/// The functions of the host that a program may call, and a closure that answers for all of them.
///
/// The closure is handed a function's number, which is its place in the table, counted from 0, and two words; the second
/// is 0 where the function takes one. Whatever the words, it may be called, and its answer meets the function's rule.
#[derive(Drop)]
pub struct Hosts {
    table: HostTable,
    answerer: Answerer,
    ghost asked: { MayBeAsked table (Answerer.pre answerer) },
    ghost meets: { MeetsRules table (Answerer.post answerer) } by { meets_rules_once table _ },
    pub ghost distinct: { HaveOwnNames table } by { IsDistinct-prop bytes_eq (host_names table.entries) },
    pub ghost few: { length table.entries < 2 ^ 32 },
}

impl Hosts {
    /// The functions of this table, whose names differ and which are fewer than 2 to the 32, with a closure that
    /// answers for them by their rules.
    pub fn new(table: HostTable, answerer: Answerer) -> Hosts
        requires asked { MayBeAsked table (Answerer.pre answerer) }
        requires meets { MeetsRules table (Answerer.post answerer) }
        requires distinct { HaveOwnNames table }
        requires few { length table.entries < 2 ^ 32 }
        ensures { result.table ≡ table }
    {
        Hosts { table, answerer }
    }

    /// The table.
    pub fn table(&self) -> &HostTable
        ensures { result.now ≡ self.now.table }
    {
        &self.table
    }

    /// What the function of this number, which is in the table, answers to two words.
    pub fn call(&self, number: u32, first: u64, second: u64) -> u64
        requires { number < length self.now.table.entries }
        ensures { IsAnswer self.now.table number first second result }
    {
        (self.answerer)(number, first, second)
    }
}
