//! What the list of well-formedness asks of one line.
ghost use Rattle.std.specs.Prelude.{◌≡◌};
ghost use Rattle.std.specs.Option.{option_map};
ghost use Rattle.target_code.specs.Formed.{check_of, check_made, unshadowed, shadow_given, is_pop, is_return, is_turn, is_push};
ghost use Rattle.target_check.specs.Checks.{check_line};

use ir_ast::Ty;
use target_code::{Line, Operand};

/// A check line.
#[derive(Clone, Copy, PartialEq, Eq)]
pub enum Check {
    Read {
        ptr: u32,
        ptr_shadow: u32,
        bytes: u32,
    },
    Write {
        ptr: u32,
        ptr_shadow: u32,
        bytes: u32,
    },
    Copy {
        to: u32,
        to_shadow: u32,
        from: u32,
        from_shadow: u32,
        len: Operand,
    },
    Free {
        ptr: u32,
        ptr_shadow: u32,
    },
}

/// The check that a line wants.
pub fn check_of(line: &Line) -> Option<Check>
    ensures { option_map check_line result ≡ check_of line.now }
{
    match line {
        Line::Load { ty, ptr, .. } => Some(Check::Read {
            ptr: *ptr,
            ptr_shadow: *ptr,
            bytes: ty.bytes(),
        }),
        Line::Store { ty, ptr, .. } => Some(Check::Write {
            ptr: *ptr,
            ptr_shadow: *ptr,
            bytes: ty.bytes(),
        }),
        Line::Modify { width, ptr, .. } | Line::CmpXchg { width, ptr, .. } => Some(Check::Write {
            ptr: *ptr,
            ptr_shadow: *ptr,
            bytes: width.bytes(),
        }),
        Line::Copy { to, from, len } => Some(Check::Copy {
            to: *to,
            to_shadow: *to,
            from: *from,
            from_shadow: *from,
            len: *len,
        }),
        Line::Free { ptr } => Some(Check::Free {
            ptr: *ptr,
            ptr_shadow: *ptr,
        }),
        _ => None,
    }
}

/// The check that a line is.
pub fn check_made(line: &Line) -> Option<Check>
    ensures { option_map check_line result ≡ check_made line.now }
{
    match line {
        Line::CheckRead {
            ptr,
            ptr_shadow,
            bytes,
        } => Some(Check::Read {
            ptr: *ptr,
            ptr_shadow: *ptr_shadow,
            bytes: *bytes,
        }),
        Line::CheckWrite {
            ptr,
            ptr_shadow,
            bytes,
        } => Some(Check::Write {
            ptr: *ptr,
            ptr_shadow: *ptr_shadow,
            bytes: *bytes,
        }),
        Line::CheckCopy {
            to,
            to_shadow,
            from,
            from_shadow,
            len,
        } => Some(Check::Copy {
            to: *to,
            to_shadow: *to_shadow,
            from: *from,
            from_shadow: *from_shadow,
            len: *len,
        }),
        Line::CheckFree { ptr, ptr_shadow } => Some(Check::Free {
            ptr: *ptr,
            ptr_shadow: *ptr_shadow,
        }),
        _ => None,
    }
}

/// The slot into which a line puts a pointer whose shadow is to follow.
pub fn unshadowed(line: &Line) -> Option<u32>
    ensures { result ≡ unshadowed line.now }
{
    match line {
        Line::Const {
            slot,
            ty: Ty::Ptr,
            ..
        }
        | Line::Gep { slot, .. }
        | Line::Load {
            slot,
            ty: Ty::Ptr,
            ..
        }
        | Line::Select {
            slot,
            ty: Ty::Ptr,
            ..
        } => Some(*slot),
        _ => None,
    }
}

/// The shadow slot that a line gives.
pub fn shadow_given(line: &Line) -> Option<u32>
    ensures { result ≡ shadow_given line.now }
{
    match line {
        Line::ShadowParam { shadow, .. }
        | Line::ShadowMove { shadow, .. }
        | Line::Make { shadow, .. }
        | Line::Loaded { shadow }
        | Line::Retag { shadow, .. }
        | Line::ShadowSelect { shadow, .. }
        | Line::TakeShadowArg { shadow, .. }
        | Line::ShadowCallResult { shadow } => Some(*shadow),
        _ => None,
    }
}

pub fn is_pop(line: &Line) -> bool
    ensures { result ≡ is_pop line.now }
{
    matches!(line, Line::PopFrame)
}

pub fn is_return(line: &Line) -> bool
    ensures { result ≡ is_return line.now }
{
    matches!(line, Line::Return)
}

pub fn is_turn(line: &Line) -> bool
    ensures { result ≡ is_turn line.now }
{
    matches!(line, Line::Turn { .. })
}

pub fn is_push(line: &Line) -> bool
    ensures { result ≡ is_push line.now }
{
    matches!(line, Line::PushFrame)
}
