// Each node by itself, with no class: where the passes start.
ghost use Rattle.std.specs.Prelude.{◌≡◌, ◌≤◌, length, replicate};
ghost use Rattle.chase.specs.Primary.{numbers_from};
ghost use Rattle.chase.specs.Bounds.{max_nodes};

fn number(reps: &mut [u32])
    requires { length reps.old ≤ max_nodes }
    ensures { reps.new ≡ numbers_from 0 (length reps.old) }
{
    for (i, rep) in reps.iter_mut().enumerate() {
        *rep = i as u32;
    }
}

pub fn begin(reps: &mut [u32], sets: &mut [u32])
    requires { length reps.old ≤ max_nodes }
    ensures reps_after { reps.new ≡ numbers_from 0 (length reps.old) }
    ensures sets_after { sets.new ≡ replicate (length sets.old) 0 }
{
    number(reps);
    sets.fill(0);
}
