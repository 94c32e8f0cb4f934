// What holds of all versions and their bytes.
ghost use Rattle.std.specs.Prelude.{◌≡◌, ℕ, List, Some, All, ◌<◌};
ghost use Rattle.rk_manifest.specs.Versions.{Version, IsVersionOf, version_at};

/// The version of a payload, which are bytes, is the one that is read, and no other: it has one spelling, and no two
/// versions share one.
pub fn one_spelling()
    ensures read { (payload : List ℕ) (v : Version) → All (λ b. b < 256) payload → version_at payload ≡ Some v → IsVersionOf payload v }
    ensures spelled { (payload : List ℕ) (v : Version) → IsVersionOf payload v → version_at payload ≡ Some v }
{}
