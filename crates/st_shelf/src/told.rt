ghost use Rattle.std.specs.Prelude.{◌≡◌, ◌*◌};
ghost use Rattle.st_rack.specs.Story.{Content, Wrote, Settled};
ghost use Rattle.st_shelf.specs.Told.{letters, story_of};

use std::mem;
use std::snapshot::Snapshot;

/// What a device that began with zeros was told, the newest first. Only clauses read it, and it takes no memory.
#[derive(Drop)]
pub enum Told<C> {
    Blank,
    /// These bytes, from that sector on.
    Wrote(u64, Snapshot<Text>, Snapshot<Told<C>>),
    /// What a sync or a power cut settled.
    Settled(Snapshot<C>, Snapshot<Told<C>>),
}

/// Bytes that only clauses read.
#[derive(Drop)]
pub enum Text {
    End,
    Byte(u8, Snapshot<Text>),
}

/// Notes that these bytes are to be written.
pub fn tell_write<C>(story: &mut Snapshot<Told<C>>, sector: u64, bytes: &[u8])
    ensures { (content : C → Content) → story_of content story.new.value ≡ Wrote (512 * sector) bytes.now (story_of content story.old.value) }
{
    let before = mem::replace(story, Snapshot::of(&Told::Blank));
    let next = Told::Wrote(sector, text_of(bytes), before);
    *story = Snapshot::of(&next);
}

/// Notes that this content is settled.
pub fn tell_settled<C>(story: &mut Snapshot<Told<C>>, held: &C)
    ensures { (content : C → Content) → story_of content story.new.value ≡ Settled (content held.now) (story_of content story.old.value) }
{
    let before = mem::replace(story, Snapshot::of(&Told::Blank));
    let next = Told::Settled(Snapshot::of(held), before);
    *story = Snapshot::of(&next);
}

fn text_of(bytes: &[u8]) -> Snapshot<Text>
    ensures { letters result.value ≡ bytes.now }
{
    let mut text = Snapshot::of(&Text::End);
    let mut i = bytes.len();
    while i > 0 {
        i -= 1;
        let next = Text::Byte(bytes[i], text);
        text = Snapshot::of(&next);
    }
    text
}
