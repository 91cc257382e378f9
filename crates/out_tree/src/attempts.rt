// Steps of a plan, tried on an output.
ghost use Rattle.std.specs.Prelude.{◌≡◌, ◌+◌, ◌≤◌, ◌<◌, ◌∷◌, [], map, true, false, vec_len, vec_capacity};
ghost use Rattle.site_base.specs.Ends.{Rose};
ghost use Rattle.site_base.specs.PathMap.{as_map, room};
ghost use Rattle.out_tree.specs.Device.{Tells, Calls};
ghost use Rattle.out_tree.specs.Belief.{after_one};
ghost use Rattle.out_tree.specs.Tries.{Tried};
ghost use Rattle.out_tree.specs.declared.step.Call.TheVariants as call;

use crate::plan::Planned;
use crate::{OutTree, State, Step};
use site_base::{PathMap, SitePath};

/// Tries each step, and lists the paths of those that fail.
pub(crate) fn try_all<O: OutTree>(
    belief: &mut PathMap<State>,
    device: &mut O,
    steps: Vec<Planned>,
    failed: &mut Vec<SitePath>,
)
    requires room { vec_len steps ≤ room belief.old }
    requires failed_room { vec_len failed.old + vec_len steps ≤ vec_capacity failed.old }
    ensures tried { Tried (map (λ p. p.step) steps.items) (as_map belief.old) (as_map belief.new)
        (O.contents device.old) (O.contents device.new) (O.calls device.old) (O.calls device.new)
        (O.failures device.old) (O.failures device.new) failed.old.items failed.new.items }
    ensures room { room belief.old ≤ room belief.new + vec_len steps }
    ensures failed_room { vec_len failed.new + vec_capacity failed.old ≤ vec_len failed.old + vec_len steps + vec_capacity failed.new }
    ensures idle { steps.items ≡ [] → device.new ≡ device.old }
{
    for planned in steps {
        let Planned { step, path } = planned;
        if !try_step(belief, device, step) {
            failed.push(path).unwrap();
        }
    }
}

// Tries one step on the output, and says whether it succeeded.
fn try_step<O: OutTree>(belief: &mut PathMap<State>, device: &mut O, step: Step) -> bool
    requires { 0 < room belief.old }
    ensures belief { as_map belief.new ≡ after_one (as_map belief.old) step result }
    ensures tells { Tells (O.contents device.old) (O.contents device.new) step result }
    ensures calls { Calls (O.calls device.old) (O.calls device.new) (call.Try step ∷ []) }
    ensures later { O.failures device.old ≤ O.failures device.new }
    ensures rose { result ≡ false → Rose (O.failures device.old) (O.failures device.new) }
    ensures steady { result ≡ true → O.failures device.new ≡ O.failures device.old }
    ensures room { room belief.old ≤ room belief.new + 1 }
{
    match step {
        Step::Remove(path) => match device.remove(&path) {
            Ok(()) => {
                let _ = belief.remove(&path);
                true
            }
            Err(_) => {
                belief.put_in_room(path, State::Marked);
                false
            }
        },
        Step::Write(path, bytes) => match device.write(&path, bytes.as_slice()) {
            Ok(()) => {
                belief.put_in_room(path, State::Known(bytes));
                true
            }
            Err(_) => {
                belief.put_in_room(path, State::Marked);
                false
            }
        },
    }
}
