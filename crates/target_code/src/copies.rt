//! Lines, functions and target code once more, with memory of their own.
use crate::line::{Line, Operand, Target, TargetFunction};
use bsan_ids::{Copied, NoMemory};

/// It takes no memory.
impl Copied for Operand {
    fn copy(&self) -> Result<Operand, NoMemory> {
        Ok(*self)
    }
}

/// A line like this one: those without fields, those whose fields are copied by their bits, and the
/// call of the host, whose operands are a list.
macro_rules! same_line {
    ($line:expr; $($plain:ident),*; $($variant:ident { $($field:ident),* })*) => {
        match $line {
            $(Line::$plain => Line::$plain,)*
            $(Line::$variant { $($field),* } => Line::$variant { $($field: *$field),* },)*
            Line::Host { slot, host, args } => Line::Host {
                slot: *slot,
                host: *host,
                args: args.copy()?,
            },
        }
    };
}

impl Copied for Line {
    fn copy(&self) -> Result<Line, NoMemory> {
        Ok(same_line! {
            self;
            PushFrame, PopFrame, Return, Unreachable;
            Turn { number }
            Param { slot, index }
            ShadowParam { shadow, index }
            Const { slot, ty, value }
            Move { slot, from }
            ShadowMove { shadow, from }
            Make { slot, shadow, place, size }
            Gep { slot, ptr, add }
            CheckRead { ptr, ptr_shadow, bytes }
            Load { slot, ty, ptr }
            Loaded { shadow }
            Stored { from }
            CheckWrite { ptr, ptr_shadow, bytes }
            Store { ty, value, ptr }
            Retag { shadow, kind, guard, ptr, ptr_shadow, size }
            Binary { slot, op, width, a, b }
            Compare { slot, cond, ty, a, b }
            Select { slot, ty, cond, a, b }
            ShadowSelect { shadow, cond, a, b }
            Cast { slot, op, from, value, to }
            PtrToInt { slot, ptr }
            Input { slot, index }
            Modify { slot, op, width, ptr, value }
            CmpXchg { slot, width, ptr, expected, value }
            CheckCopy { to, to_shadow, from, from_shadow, len }
            Copy { to, from, len }
            CheckFree { ptr, ptr_shadow }
            Free { ptr }
            Print { width, value }
            Arg { index, value }
            ShadowArg { index, from }
            TakeArg { slot, index }
            TakeShadowArg { shadow, index }
            Call { function }
            CallResult { slot }
            ShadowCallResult { shadow }
            RetagResult { kind, size }
            Spawn { slot, function }
            Join { handle }
            Branch { cond }
            Jump { block }
            Result { value }
            ShadowResult { from }
        })
    }
}

impl Copied for TargetFunction {
    fn copy(&self) -> Result<TargetFunction, NoMemory> {
        Ok(TargetFunction {
            name: self.name.copy()?,
            slots: self.slots,
            entry: self.entry.copy()?,
            blocks: self.blocks.copy()?,
        })
    }
}

impl Copied for Target {
    fn copy(&self) -> Result<Target, NoMemory> {
        Ok(Target {
            version: self.version,
            functions: self.functions.copy()?,
        })
    }
}
