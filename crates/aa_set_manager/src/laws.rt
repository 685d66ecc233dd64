//! What every change of a policy set preserves, as a law over the definitions that the changes are proved to follow.

ghost use Rattle.aa_set_manager.specs.ChangeLaws.{ChangesKeepNamesApart};

use aa_profile::how_profiles_are_named;

/// No change gives two entries one name.
pub fn what_changes_keep()
    ensures { ChangesKeepNamesApart }
{
    how_profiles_are_named();
}
