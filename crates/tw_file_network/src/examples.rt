//! Worked examples of files of format `tw-2`, by which the definitions were reviewed: what they compute is what was
//! written down by hand.

ghost use Rattle.tw_file_network.specs.TreeExamples.{NestedFile, NestedTwoPaths, NoSuchPart};

/// What the file's value of a generator, a coupled model of a relay and a tally, and another tally says.
pub fn nested_files()
    ensures nested { NestedFile }
    ensures two_paths { NestedTwoPaths }
    ensures no_such_part { NoSuchPart }
{}
