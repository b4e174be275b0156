// Laws of images.
ghost use Rattle.std.specs.Prelude.{◌≡◌, ◌<◌, ℕ, List, All, Ok, true};
ghost use Rattle.icn_code.specs.Codes.{Tables};
ghost use Rattle.icn_code.specs.Rules.{keeps_rules};
ghost use Rattle.icn_image.specs.declared.version.Version.{Version};
ghost use Rattle.icn_image.specs.declared.version.Version.TheVariants.{Second};
ghost use Rattle.icn_image.specs.Reading.{image_read};
ghost use Rattle.icn_image.specs.Spelling.{image_in, image_of};
ghost use Rattle.icn_image.specs.Versions.{can_hold};

/// Bytes that are read as a code are its spelling in a version that can hold it, and the code keeps the rules of codes. Each code
/// that a version can hold is read again from its spelling there, so that two with one spelling are equal. The second version can
/// hold each code.
pub fn one_spelling()
    ensures kept { (bytes : List ℕ) (tables : Tables) → All (λ byte. byte < 256) bytes
        → image_read bytes ≡ Ok tables → keeps_rules tables ≡ true }
    ensures spelled { (bytes : List ℕ) (tables : Tables) → All (λ byte. byte < 256) bytes
        → image_read bytes ≡ Ok tables
        → (version : Version) × ((can_hold version tables ≡ true) × (bytes ≡ image_in version tables)) }
    ensures read_again { (version : Version) (tables : Tables) → can_hold version tables ≡ true
        → image_read (image_in version tables) ≡ Ok tables }
    ensures read_back { (tables : Tables) → keeps_rules tables ≡ true → image_read (image_of tables) ≡ Ok tables }
    ensures once { (version : Version) (a b : Tables) → can_hold version a ≡ true → can_hold version b ≡ true
        → image_in version a ≡ image_in version b → a ≡ b }
    ensures whole { (tables : Tables) → keeps_rules tables ≡ true → can_hold Second tables ≡ true }
{}
