//! The host's functions, for threads that are generic in them.
ghost use Rattle.std.specs.Prelude.{◌≡◌, ◌<◌, length};
ghost use Rattle.hosts.specs.Rules.{IsAnswer};
ghost use Rattle.ir_ast.specs.declared.hosts.HostTable.{HostTable};

use hosts::Hosts;
use ir_ast::HostTable;

/// What a thread asks of the functions of the host. A cycle of calls through threads takes them by a
/// type parameter, since it can't name the boxed closure that `Hosts` holds.
pub trait HostCalls {
    ghost table: { Self → HostTable };

    /// The table of the functions.
    fn table(&self) -> &HostTable
        ensures { result.now ≡ table self.now };

    /// What the function of this number, which is in the table, answers to two words.
    fn call(&self, number: u32, first: u64, second: u64) -> u64
        requires { number < length (table self.now).entries }
        ensures { IsAnswer (table self.now) number first second result };
}

impl HostCalls for Hosts {
    ghost table = { λ hosts. hosts.table };

    fn table(&self) -> &HostTable {
        Hosts::table(self)
    }

    fn call(&self, number: u32, first: u64, second: u64) -> u64 {
        Hosts::call(self, number, first, second)
    }
}
