//! Laws over the definitions. Each function does nothing: its contract is the law.
ghost use Rattle.tree_laws.specs.Laws.{SoundMeans};

/// The verdict of a sound tree is right: the matrix is totally unimodular if the verdict is yes, and it is not if the verdict
/// is no.
pub fn sound_means()
    ensures { SoundMeans }
{}
