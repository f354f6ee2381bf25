//! A client's part of a store: how many calls it has made, and its open query's begin.

ghost use Rattle.std.specs.List.{list_any};
ghost use Rattle.std.specs.Option.{option_to_list};
ghost use Rattle.std.specs.Prelude.{IfSome, nat_le, not, ◌≡◌, ◌^◌, ◌<◌, ◌&&◌};
ghost use Rattle.pref_core.specs.Operations.{callers_after};
ghost use Rattle.pref_core.specs.Slots.{has_ended};
ghost use Rattle.pref_core.specs.State.{seat};

use crate::call::LentCall;
use crate::store::version::is_alive;

/// How many numbered calls a client has made, and the stamp at its open query's begin.
#[derive(Clone, Copy)]
pub struct Caller {
    pub calls: u64,
    pub at_begin: Option<u64>,
}

/// Whether an open query's begin sees a version of this birth that ends then.
#[inline(always)]
pub(crate) fn sees(caller: &Caller, birth: u64, death: Option<u64>) -> bool
    ensures { result ≡ list_any (λ stamp. nat_le birth stamp && not (has_ended stamp death)) (option_to_list caller.now.at_begin) }
{
    match caller.at_begin {
        Some(stamp) => is_alive(birth, death, stamp),
        None => false,
    }
}

/// The calls and the begin of the client of this number, if there is one.
pub(crate) fn caller_of(callers: &[Caller], client: u8) -> Option<Caller>
    ensures { result ≡ seat client callers.now }
{
    if client == 0 {
        None
    } else {
        callers.get(client as usize - 1).copied()
    }
}

/// The client has made one call more.
pub(crate) fn count(callers: &mut [Caller], client: u8, call: &LentCall<'_>, stamp: u64)
    requires { IfSome (seat client callers.old) (λ caller. caller.calls < 2 ^ 56) }
    ensures { callers.new ≡ callers_after stamp callers.old client call.now }
{
    let seat = client as usize;
    if 0 < seat && seat <= callers.len() {
        let caller = &mut callers[seat - 1];
        caller.calls += 1;
        caller.at_begin = call.begun_after(stamp, caller.at_begin);
    }
}
