//! Whether a reply fits.
ghost use Rattle.std.specs.Prelude.{◌≡◌, ◌↔◌, ◌<◌, ◌^◌, ◌⊎◌, IsTrue, None, true};
ghost use Rattle.history.specs.declared.entry.Plain.TheVariants as plain;
ghost use Rattle.ir_ast.specs.Words.{word_bits};
ghost use Rattle.thread_parts.specs.Fits.{CopiedOf, IsDone, IsTrap, IsWord, JoinFits, MadeAt, ReplyFits, RetaggedAt, SpawnedChild, ValueFits, ValueIn};

use bsan_ids::{Prov, Tag};
use history::{Entry, Plain, Reply, Request};
use ir_ast::{Ty, Width};

/// Whether a word is below two to the power of the bits of its type.
pub(crate) fn is_word(ty: Ty, word: u64) -> bool
    ensures { IsTrue result ↔ (word < 2 ^ word_bits ty) }
{
    match ty {
        Ty::Int(Width::W8) => word < 0x100,
        Ty::Int(Width::W16) => word < 0x1_0000,
        Ty::Int(Width::W32) => word < 0x1_0000_0000,
        Ty::Int(Width::W64) | Ty::Ptr => true,
    }
}

/// Whether a word with this provenance is one of the type.
fn is_value(ty: Ty, word: u64, carried: Option<Prov>) -> bool
    ensures { IsTrue result ↔ ValueFits ty (record { value = word; prov = carried }) }
{
    is_word(ty, word) && (matches!(ty, Ty::Ptr) || carried.is_none())
}

/// Whether a reply is a value of the type, or a trap.
fn has_value(ty: Ty, reply: &Reply) -> bool
    ensures { IsTrue result ↔ ValueIn ty reply.now reply.now.plain }
{
    match &reply.plain {
        Plain::Value(word) => is_value(ty, *word, reply.carried),
        Plain::Trapped(_) => true,
        _ => false,
    }
}

/// Whether the entry's reply carries the provenance of the entry's number and stamp.
fn is_made(entry: &Entry) -> bool
    ensures { IsTrue result ↔ MadeAt entry.now entry.now.reply.plain }
{
    match &entry.reply.plain {
        Plain::Made(number) => {
            let root = Prov {
                alloc: *number,
                tag: Tag(entry.stamp.0),
            };
            entry.alloc == Some(*number) && entry.reply.carried == Some(root)
        }
        _ => false,
    }
}

/// Whether the reply carries the provenance of a node that the entry made.
fn is_retagged(entry: &Entry) -> bool
    ensures { IsTrue result ↔ RetaggedAt entry.now entry.now.reply.plain }
{
    match &entry.reply.plain {
        Plain::Retagged { added } => !*added || carries_node(entry),
        _ => false,
    }
}

fn carries_node(entry: &Entry) -> bool
    ensures { IsTrue result ↔ RetaggedAt entry.now (plain.Retagged true) }
{
    match entry.alloc {
        Some(number) => {
            let node = Prov {
                alloc: number,
                tag: Tag(entry.stamp.0),
            };
            entry.reply.carried == Some(node)
        }
        None => false,
    }
}

/// Whether a reply has a piece of so many bytes, or is a trap.
fn is_copied(len: u8, plain: &Plain) -> bool
    ensures { IsTrue result ↔ CopiedOf len plain.now }
{
    match plain {
        Plain::Copied(piece) => piece.len() == len as usize,
        Plain::Trapped(_) => true,
        _ => false,
    }
}

fn is_trap(plain: &Plain) -> bool
    ensures { IsTrue result ↔ IsTrap plain.now }
{
    matches!(plain, Plain::Trapped(_))
}

fn is_done(plain: &Plain) -> bool
    ensures { IsTrue result ↔ IsDone plain.now }
{
    matches!(plain, Plain::Done)
}

fn is_done_or_trap(plain: &Plain) -> bool
    ensures { IsTrue result ↔ (IsDone plain.now ⊎ IsTrap plain.now) }
{
    is_done(plain) || is_trap(plain)
}

fn is_any_word(plain: &Plain) -> bool
    ensures { IsTrue result ↔ IsWord plain.now }
{
    match plain {
        Plain::Value(word) => is_word(Ty::Ptr, *word),
        _ => false,
    }
}

fn is_spawned(plain: &Plain) -> bool
    ensures { IsTrue result ↔ SpawnedChild plain.now }
{
    match plain {
        Plain::Spawned(number) => is_word(Ty::Int(Width::W32), u64::from(number.0)),
        _ => false,
    }
}

/// Whether a reply fits a join that names this type.
fn fits_join(ty: Option<Ty>, reply: &Reply) -> bool
    ensures { IsTrue result ↔ (JoinFits ty reply.now reply.now.plain × (IsTrap reply.now.plain → ⊥)) }
{
    match (&reply.plain, ty) {
        (Plain::Value(word), Some(ty)) => is_value(ty, *word, reply.carried),
        (Plain::Value(_), None) => true,
        _ => false,
    }
}

/// Whether an entry's reply fits its request, where a join names this type.
pub(crate) fn does_fit(ty: Option<Ty>, entry: &Entry) -> bool
    ensures { IsTrue result ↔ ReplyFits ty entry.now entry.now.request }
{
    let plain = &entry.reply.plain;
    match &entry.request {
        Request::Make { .. } => is_made(entry),
        Request::Load { ty, .. } => has_value(*ty, &entry.reply),
        Request::Modify { width, .. } | Request::CmpXchg { width, .. } => {
            has_value(Ty::Int(*width), &entry.reply)
        }
        Request::Store { .. } | Request::CopyIn { .. } | Request::Free { .. } => {
            is_done_or_trap(plain)
        }
        Request::CopyOut { len, .. } => is_copied(*len, plain),
        Request::Retag { .. } => is_retagged(entry),
        Request::EndProtector { .. } | Request::Print { .. } => is_done(plain),
        Request::Host { .. } => is_any_word(plain),
        Request::Spawn { .. } => is_spawned(plain),
        Request::Join { .. } => fits_join(ty, &entry.reply),
    }
}
