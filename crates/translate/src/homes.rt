// The alternatives, each its own home.
ghost use Rattle.std.specs.Prelude.{◌≤◌, length};
ghost use Rattle.rows.specs.Laid.{spot_unit};
ghost use Rattle.translate.specs.Stages.{OwnHomes};

// Nothing is folded yet: each alternative has its own number. Closing's `start` does the same to an array of all spots; one function for
// both would be no plainer, as each promises its own definition.
pub(crate) fn own_homes(homes: &mut [u32])
    requires { length homes.old ≤ spot_unit }
    ensures { OwnHomes homes.old homes.new }
{
    for (i, home) in homes.iter_mut().enumerate() {
        *home = i as u32;
    }
}
