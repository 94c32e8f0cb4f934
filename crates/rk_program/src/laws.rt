// What holds of all command files and their transcripts.
ghost use Rattle.rk_program.specs.Laws.{OneTranscript, SomeTranscript};

/// A command file has one transcript: there is one, and no two.
pub fn a_file_has_one_transcript()
    ensures no_two { OneTranscript }
    ensures there_is_one { SomeTranscript }
{}
