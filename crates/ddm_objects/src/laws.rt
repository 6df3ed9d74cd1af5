//! What holds of objects and their texts: laws over the definitions, for callers that need them.
//! The functions do nothing; their contracts are the laws.

ghost use Rattle.ddm_objects.specs.Laws.{IsCutOnce, ReadsObjects, WalksOn, WalksTheCut, SpellsObjects, ReadsBack};
ghost use Rattle.ddm_objects.specs.Writing.{Trees};

/// A text is cut into objects in one way at most.
pub fn one_cut()
    ensures { IsCutOnce }
{}

/// An object at the front of bytes is read, and what is read is an object at the front.
pub fn reads_objects()
    ensures { ReadsObjects }
{}

/// The walk over a text goes object by object, up to the end or the first fault.
pub fn walk_goes_on()
    ensures { WalksOn }
{}

/// The walk over bytes without fault is their cut into objects, and a walk that ends in a fault has
/// read the objects before it.
pub fn walk_is_the_cut()
    ensures { WalksTheCut }
{}

/// What a writer spells is that object, in 4 bytes more than its data where those are up to 32,763,
/// and in 12 at most.
pub fn spelled_is_an_object()
    ensures { SpellsObjects }
{}

/// What is written container by container reads back as that tree.
pub fn nesting_reads_back()
    ensures { (trees : Trees) → ReadsBack trees }
{}
