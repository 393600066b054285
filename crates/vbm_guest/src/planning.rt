//! The plan that settles all staged entries.

ghost use Rattle.std.specs.Prelude.{◌≡◌, ◌+◌, ◌*◌, ◌≤◌, length, All};
ghost use Rattle.vbm_intent.specs.Plan.{body_size};
ghost use Rattle.vbm_image.specs.Image.{IsInForm};
ghost use Rattle.vbm_guest.specs.Edited.{AreNamedApart};
ghost use Rattle.vbm_guest.specs.Flushing.{settling_all, staged_in};
ghost use Rattle.vbm_guest.specs.Memory.{HasRoomFor};

use vbm_image::{Images, push_pending};
use vbm_intent::Plan;

/// How many entries are staged.
pub(crate) fn count_staged(images: &Images) -> u32
    requires { staged_in images.now.items ≤ 8192 }
    ensures { result ≡ staged_in images.now.items }
{
    let mut count = 0;
    for i in 0..images.len() {
        count += images.get(i).pending.len() as u32;
    }
    count
}

/// Adds the settling of all staged entries to an empty plan that has the room. It takes no memory.
pub(crate) fn plan_all(plan: &mut Plan, images: &Images)
    requires form { All IsInForm images.now.items }
    requires names { AreNamedApart images.now.items }
    requires room { HasRoomFor (staged_in images.now.items) plan.old }
    requires few { staged_in images.now.items ≤ 8192 }
    ensures changes { plan.new.changes ≡ settling_all images.now.items }
    ensures spare { plan.old.spare ≤ plan.new.spare + body_size plan.new.changes }
{
    for i in 0..images.len() {
        push_pending(plan, images.get(i));
    }
}
