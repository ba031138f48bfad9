// Tables of cases.
// The other test crate has this file too: a library of both would take an Abort bound out of the tests.
use crate::note::Noted;

// Every case of a table passes. A failure notes the case, counted from 0.
pub(crate) fn check_all<'a, C, F: Fn(&Noted<&'a HostRuntime, usize>, &C)>(
    rt: &'a HostRuntime,
    cases: &[C],
    passes: F,
)
    requires { F.IsAlwaysCallable passes }
{
    for (i, case) in cases.iter().enumerate() {
        passes(&Noted(rt, i), case);
    }
}
