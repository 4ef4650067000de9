ghost use Rattle.off_file_laws.specs.Laws.{ProfilesAgree, ProfilesSpell, OwnSettingsOnce};
ghost use Rattle.off_file_laws.specs.Laws.{FileIsOne, FileIsThere, FilesAreShort, FilesBoot};

/// In a modem's profile the references of service flows differ over both directions, and so do
/// those of classifiers; each classifier names a flow of its direction.
pub fn profiles_agree()
    ensures { ProfilesAgree }
{}

/// A modem's profile is spelled by the grammar of files, and has neither of the two integrity
/// checks.
pub fn profiles_spell()
    ensures { ProfilesSpell }
{}

/// The settings that the office writes itself stand once each in a file: no class and no add-on has
/// them.
pub fn own_settings_stand_once()
    ensures { OwnSettingsOnce }
{}

/// A modem has at most one file at a moment and an address.
pub fn a_modem_has_one_file()
    ensures { FileIsOne }
{}

/// It has one where the site, the modem, its subscriber and its class are there.
pub fn a_file_is_there()
    ensures { FileIsThere }
{}

/// No file has more than 6,200 bytes.
pub fn files_are_short()
    ensures { FilesAreShort }
{}

/// A file reads by the grammar as its settings and both integrity checks, and as nothing else, and
/// both are right.
pub fn a_built_file_boots()
    ensures { FilesBoot }
{}
