// What holds of every history, for the crates above.
ghost use Rattle.component_law.specs.FenceTags.{EachStepTellsTags};
ghost use Rattle.component_law.specs.LeftPending.{PendingIsRead};
ghost use Rattle.component_law.specs.Sound.{EachStepIsSound};
ghost use Rattle.component_law.specs.Going.{EachStepTells};
ghost use Rattle.component_law.specs.Tags.{EachStepRaisesTags};
ghost use Rattle.component_law.specs.Apart.{EachStepIsApart, ComponentsApart};
ghost use Rattle.component_law.specs.Moments.{DeclaredHaveFailed, ServerWritesToOthers};
ghost use Rattle.component_law.specs.Seeing.{SeenIsSound};
ghost use Rattle.component_law.specs.Told.{LossesAreTold};
ghost use Rattle.component_law.specs.OnDrives.{ComponentsStandApart};

use history_law::parties_run;

/// The line of a call that is left pending changes nothing of what is seen of a history.
pub fn pending_is_read()
    ensures { PendingIsRead }
{}

/// Each step keeps that no two files have one number, that none has more components than its map, and that a
/// component is missing while a rebuild makes it anew, as long as lines can name the files and drives that come.
pub fn each_step_is_sound()
    ensures { EachStepIsSound }
{}

/// In each step a file stays with its map. Its components are behind it as its notes tell, after those on a drive that is
/// declared and that the server knows became missing, but for the objects of those that were rebuilt.
pub fn each_step_tells()
    ensures { EachStepTells }
{}

/// In each step the tag of a file doesn't fall, and a note that a fence of it is over tells a later tag than it had
/// before.
pub fn each_step_raises_tags()
    ensures { EachStepRaisesTags }
{}

/// In each step the tag of a file rises by one with each note that a fence of it is over, and is the tag of that note
/// then. A file that is made has the tag with which it is to be made.
pub fn each_step_tells_tags()
    ensures { EachStepTellsTags }
{}

/// The server that is read off the lines of a history is sound, where lines can name the files and drives of its
/// events.
pub fn seen_is_sound()
    ensures { SeenIsSound }
{}

/// A drive whose declaration isn't refused is among those that failed, as they are read off the lines.
pub fn declared_have_failed()
    ensures { DeclaredHaveFailed }
{}

/// At each moment no message was sent from the server to itself.
pub fn server_writes_to_others()
    ensures { ServerWritesToOthers }
{}

/// Each step leaves the components of each file on different drives, where it adds no drive that the server knows.
pub fn each_step_is_apart()
    ensures { EachStepIsApart }
{}

/// Whatever comes to a new server, the components of each file, present or missing, stand on different drives, and the
/// target of a rebuild on a further one: where no drive is added twice, and lines can name drives and files.
pub fn components_apart()
    ensures { ComponentsApart }
{}

/// At each moment of a lawful history whose events lines can name, the components of each file, present or missing,
/// stand on different drives, and where a rebuild makes one anew it does so on a further drive.
pub fn components_stand_apart()
    ensures { ComponentsStandApart }
{
    each_step_is_sound();
    each_step_is_apart();
}

/// At each moment, where a step of the server sends an answer that takes a loss, the lines of its messages say so: the
/// answer is for a client that a line can name, and is read from its bytes as one that takes a loss.
pub fn losses_are_told()
    ensures { LossesAreTold }
{
    parties_run();
}
