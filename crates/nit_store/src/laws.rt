//! Laws of stores, over what contracts see of them.

ghost use Rattle.std.specs.Prelude.{◌≡◌, ◌++◌, ◌∷◌, [], List, Some};
ghost use Rattle.nit_store.specs.Terms.{File, PutRefusal, PutState, PutsAll, PutsNext};

/// Files are put one after the other, until a put is refused. One more file, or more files, may be
/// put after them, and after a refusal nothing changes.
pub fn puts_go_on()
    ensures next { (files : List File) (file : File) (old mid new : PutState)
        → PutsAll files old mid → PutsNext file mid new → PutsAll (files ++ file ∷ []) old new }
    ensures both { (front back : List File) (old mid new : PutState)
        → PutsAll front old mid → PutsAll back mid new → PutsAll (front ++ back) old new }
    ensures stopped { (files : List File) (old new : PutState) (r : PutRefusal)
        → old.refused ≡ Some r → PutsAll files old new → new ≡ old }
{}
