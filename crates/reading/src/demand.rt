// Demands in whole kW, and the load size that follows from them.
ghost use Rattle.std.specs.Prelude.{◌≡◌, ◌∷◌};
ghost use Rattle.reading.specs.Demand.{Nearest, kw_nearest, load_of};

// A demand in tenths of a kW to the nearest kW, a half going up. Cents are rounded alike, in `book`: one function of both
// would take the unit as an argument, which is no plainer.
pub fn nearest_kw(tenths: u32) -> u32
    ensures value { result ≡ kw_nearest tenths }
    ensures nearest { Nearest tenths result }
{
    let whole = tenths / 10;
    if tenths % 10 >= 5 { whole + 1 } else { whole }
}

// The load size in kW, from this month's demand in kW and those of earlier months.
#[tactic(auto, using(crate::proofs::Greatest::greatest_more, crate::proofs::Greatest::second_more))]
pub fn load_size(demand: u16, earlier: &[u16]) -> u16
    ensures { result ≡ load_of (demand ∷ earlier.now) }
{
    let mut first = demand;
    let mut second = 0u16;
    for kw in earlier {
        second = second.max(first.min(*kw));
        first = first.max(*kw);
    }
    if second == 0 {
        return first;
    }
    ((u32::from(first) + u32::from(second)) / 2) as u16
}
