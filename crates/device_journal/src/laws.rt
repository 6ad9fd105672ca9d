// What holds of every image, as contracts of functions that do nothing.
ghost use Rattle.std.specs.Prelude.{◌≡◌, List, ℕ};
ghost use Rattle.device_journal.specs.Frames.{HasFrames, IsOffAt};

/// An image stands for one list of payloads at most.
pub fn frames_are_unique()
    ensures { (image : List ℕ) (payloads others : List (List ℕ)) → HasFrames image payloads → HasFrames image others
        → payloads ≡ others }
{}

/// An image that is off at a place stands for no payloads.
pub fn off_stands_for_nothing()
    ensures { (image : List ℕ) (payloads : List (List ℕ)) (at : ℕ) → HasFrames image payloads → IsOffAt image at → ⊥ }
{}

/// An image is off at one place at most.
pub fn an_image_is_off_at_one_place()
    ensures { (image : List ℕ) (at other : ℕ) → IsOffAt image at → IsOffAt image other → at ≡ other }
{}
