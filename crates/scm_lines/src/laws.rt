//! A line is read just as the table of forms says; and which lines a version has.
ghost use Rattle.std.specs.Prelude.{◌≡◌, ◌≤◌, List, ℕ, Some, false, true};
ghost use Rattle.scm_lines.specs.Meaning.{line_of};
ghost use Rattle.scm_lines.specs.Says.{IsLine};
ghost use Rattle.scm_lines.specs.Versions.{is_of_first, is_unknown, number_of, read_in};
ghost use Rattle.scm_lines.specs.declared.line.Line.{Line};
ghost use Rattle.scm_lines.specs.declared.line.TheConstants.{MAX_LINE};
ghost use Rattle.scm_lines.specs.declared.version.Version.{Version};
ghost use Rattle.scm_lines.specs.declared.version.Version.TheVariants as version;

/// A line that is read is one that the table says.
pub fn what_is_read_is_said()
    ensures { (bytes : List ℕ) (said : Line) → line_of bytes ≡ Some said → IsLine bytes said }
{}

/// A line that the table says is read.
pub fn what_is_said_is_read()
    ensures { (bytes : List ℕ) (said : Line) → IsLine bytes said → line_of bytes ≡ Some said }
{}

/// A line of version 1 is read the same in any script.
pub fn version_1_is_read_in_any()
    ensures { (v : Version) (bytes : List ℕ) (said : Line) → is_of_first said ≡ true
        → line_of bytes ≡ Some said → read_in v bytes ≡ Some said }
{}

/// A script of version 1 has no other line.
pub fn version_1_has_no_other()
    ensures { (bytes : List ℕ) (said : Line) → read_in version.First bytes ≡ Some said
        → is_of_first said ≡ true }
{}

/// Once a version is known, each line that its script may have is read the same in a later one.
pub fn a_later_version_reads_the_same()
    ensures { (v w : Version) (bytes : List ℕ) (said : Line) → is_unknown v ≡ false
        → number_of v ≤ number_of w → read_in v bytes ≡ Some said → read_in w bytes ≡ Some said }
{}

/// The longest line has 262,144 bytes.
pub fn longest_line()
    ensures { MAX_LINE ≡ 262144 }
{}
