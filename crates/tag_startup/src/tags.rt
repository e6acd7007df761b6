// The tags of an image's objects.
ghost use Rattle.std.specs.Prelude.{◌≡◌, ◌≢◌, [], slice_index};
ghost use Rattle.std.specs.List.{All};
ghost use Rattle.mt_base.specs.Tags.{base};
ghost use Rattle.tag_startup.specs.Memory.{CanBeTagged, IsTagged, with_object, with_objects};
ghost use Rattle.tag_startup.specs.Tags.{choices_drawn};

use crate::parts::LOAD_ADDRESS;
use memtag_desc::Interval;
use mt_base::{Exclude, Tag, next_tag};
use tag_mem::TagMemory;

// The tag 0 alone, which no object gets.
const ZERO_EXCLUDED: Exclude = Exclude(1);

/// The tag of the first object: the base tag of the first choice.
pub fn first_tag(choices: &[Tag]) -> Tag
    requires { choices.now ≢ [] }
    ensures { result ≡ base (slice_index choices.now 0) }
{
    next_tag(choices[0], 0, ZERO_EXCLUDED)
}

/// How many choices the objects draw.
pub fn choices_drawn(objects: &[Interval]) -> u64
    ensures { result ≡ choices_drawn objects.now }
{
    match objects {
        [] => 0,
        _ => 1,
    }
}

/// Tags the objects in order: the first one with this tag, each next one with the tag after it.
pub fn tag_objects<M: TagMemory>(memory: &mut M, objects: &[Interval], first: Tag)
    requires { All (CanBeTagged (M.regions memory.old) (M.guard memory.old)) objects.now }
    ensures { IsTagged M.TagMemory memory.old memory.new (with_objects (M.tags memory.old) first objects.now) }
{
    let mut tag = first;
    for object in objects {
        tag_object(memory, object, tag);
        tag = next_tag(tag, 1, ZERO_EXCLUDED);
    }
}

// Tags the granules of an object.
fn tag_object<M: TagMemory>(memory: &mut M, object: &Interval, tag: Tag)
    requires { CanBeTagged (M.regions memory.old) (M.guard memory.old) object.now }
    ensures { IsTagged M.TagMemory memory.old memory.new (with_object (M.tags memory.old) object.now tag) }
{
    for n in 0..object.bytes / 16 {
        memory.set_tag(LOAD_ADDRESS + object.start + 16 * n, tag);
    }
}
