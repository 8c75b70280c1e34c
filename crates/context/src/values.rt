ghost use Rattle.std.specs.Prelude.{◌≡◌, ◌≤◌, ℕ, List, [], ◌∷◌, not, length as many, take, IfOk, MatchResult};
ghost use Rattle.refusals.specs.declared.refusal.Refusal.TheVariants.{BadValue};
ghost use Rattle.refusals.specs.Answers.{told, due, judged};
ghost use Rattle.read.specs.Scopes.{view, size};
ghost use Rattle.context.specs.Contexts.{Grown, Overlaid, Unchanged, space_dues, value_dues, value_at_dues};

use crate::context::WriteContext;
use kinds::Kind;
use read::ReadScope;
use refusals::Refusal;
use std::marker::Model;

// Writes the bytes of a kind's value.
pub fn write<K: Kind, C: WriteContext>(ctxt: &mut C, v: K::HostType) -> Result<(), Refusal>
    ensures answer { told (λ t. t) result ≡ judged (value_dues (K.Kind.fitting v) (C.WriteContext.means.space ctxt.old) K.Kind.width) tt }
    ensures after { MatchResult result (λ _. Grown C.WriteContext.means ctxt.old (K.Kind.bytes v) ctxt.new) (λ _. Unchanged C.WriteContext.means ctxt.old ctxt.new) }
{
    ctxt.write_bytes(Encoded::of::<K>(v)?.bytes())
}

// Lays the bytes of a kind's value over those written, from `offset` on.
pub fn write_value_at<K: Kind, C: WriteContext>(
    ctxt: &mut C,
    offset: usize,
    v: K::HostType,
) -> Result<(), Refusal>
    ensures answer { told (λ t. t) result ≡ judged (value_at_dues (K.Kind.fitting v) (C.WriteContext.means.written ctxt.old) offset K.Kind.width) tt }
    ensures after { MatchResult result (λ _. Overlaid C.WriteContext.means ctxt.old offset (K.Kind.bytes v) ctxt.new) (λ _. Unchanged C.WriteContext.means ctxt.old ctxt.new) }
{
    ctxt.write_at(offset, Encoded::of::<K>(v)?.bytes())
}

// Writes the bytes of a scope.
pub fn write_scope<C: WriteContext>(ctxt: &mut C, scope: ReadScope<'_>) -> Result<(), Refusal>
    ensures answer { told (λ t. t) result ≡ judged (space_dues (C.WriteContext.means.space ctxt.old) (size (view scope.entry))) tt }
    ensures after { MatchResult result (λ _. Grown C.WriteContext.means ctxt.old (view scope.entry).slice.bytes ctxt.new) (λ _. Unchanged C.WriteContext.means ctxt.old ctxt.new) }
{
    ctxt.write_bytes(scope.data())
}

// The bytes of one value, at most 64. (The room is fixed, since the device has no heap.)
#[derive(Drop)]
struct Encoded {
    room: [u8; 64],
    len: usize,
}

impl Model for Encoded {
    ghost Value = { List ℕ };

    ghost view = { λ e. take e.len e.room };

    ghost invariant = { λ e. (e.len ≤ 64) × (many e.room ≡ 64) };
}

impl Encoded {
    // The bytes of a kind's value.
    fn of<K: Kind>(v: K::HostType) -> Result<Encoded, Refusal>
        ensures answer { told (λ bs. bs) result ≡ judged (due BadValue (not (K.Kind.fitting v)) ∷ []) (K.Kind.bytes v) }
        ensures sized { IfOk result (λ bs. many bs ≡ K.Kind.width) }
    {
        Refusal::BadValue.unless(K::fits(v))?;
        let mut room = [0; 64];
        let len = K::size();
        unsafe { K::write_unchecked(v, &mut room[..len]) };
        Ok(Encoded { room, len })
    }

    // Those bytes.
    fn bytes(&self) -> &[u8]
        ensures value { result.now ≡ self.now }
    {
        &self.room[..self.len]
    }
}
