//! The families of lines, by which they are looked at.
ghost use Rattle.std.specs.Prelude.{◌≡◌};
ghost use Rattle.target_code.specs.Families.{family};

use crate::line::Line;

#[derive(Clone, Copy, Debug, PartialEq, Eq)]
pub enum Family {
    /// A line of a frame, or of the way through the blocks.
    Flow,
    /// The check of an access.
    Check,
    /// A load, store, copy or free, and the provenance that a load finds or a store leaves.
    Access,
    /// A slot is given its value or a shadow slot its provenance, or a value is printed.
    Value,
    /// A slot is given what is computed of others, or the choice among them.
    Computation,
    /// A line of arguments, calls, threads and their results.
    Call,
}

/// The family of a line, by a list of the forms in each.
macro_rules! family_of {
    ($line:expr; $($family:ident: $($variant:ident)*;)*) => {
        match $line {
            $($(Line::$variant { .. })|* => Family::$family,)*
        }
    };
}

impl Line {
    pub fn family(&self) -> Family
        ensures { result ≡ family self.now }
    {
        family_of! {
            self;
            Flow: Turn PushFrame Param ShadowParam Branch Jump Result ShadowResult PopFrame Return Unreachable;
            Check: CheckRead CheckWrite CheckCopy CheckFree;
            Access: Load Loaded Stored Store Modify CmpXchg Copy Free;
            Value: Const Move ShadowMove Make Gep Retag Input Print;
            Computation: Binary Compare Select ShadowSelect Cast PtrToInt;
            Call: Arg ShadowArg TakeArg TakeShadowArg Call CallResult ShadowCallResult RetagResult Spawn Join Host;
        }
    }
}
