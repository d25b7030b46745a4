// What holds of the file format itself. Each law is the contract of a function that does nothing.
ghost use Rattle.sb_journal.specs.Laws.{ReadsBack, ReadsBackCut, SpellsOnly, NewFileBytes, NextFileBytes, NewIsFound, OtherIsRefused, GreaterIsFound, SameIsDamage, TornIsFound, TornIsKept, OneIsChosen, FrontsChoose, ChoiceIsWorked};
ghost use Rattle.sb_journal.specs.Turned.{TurnedIsFound, TurnedIsKept};

/// A whole file is read back as itself, whatever stands behind its closed end gate, and also where
/// the end gate is missing behind a record.
pub fn reads_back()
    ensures closed { ReadsBack }
    ensures cut { ReadsBackCut }
{}

/// Only a file's own bytes are read as that file.
pub fn spells_only()
    ensures { SpellsOnly }
{}

/// The bytes of a new file, and of one that goes on with a base.
pub fn new_file_bytes()
    ensures first { NewFileBytes }
    ensures next { NextFileBytes }
{}

/// No file is made over what may be one, nor beside it: where no file was made, bytes are damage at 0 that
/// are more than a new file has. What a crash leaves while a first file is made never is.
pub fn keeps_what_may_be_a_file()
    ensures refused { OtherIsRefused }
    ensures found { NewIsFound }
{}

/// What a crash during an append left is the file with the record or without it, and stays so
/// through crashes during openings, however many.
pub fn recovers_from_torn_appends()
    ensures found { TornIsFound }
    ensures kept { TornIsKept }
{}

/// What a crash left while a journal went on with the next file is found as the file before or the next one,
/// and stays so through crashes during openings, however many.
pub fn recovers_from_torn_bases()
    ensures found { TurnedIsFound }
    ensures kept { TurnedIsKept }
{}

/// Of two files the one of greater generation is read, whichever disk it stands on; two of one
/// generation are damage.
pub fn reads_the_later_file()
    ensures greater { GreaterIsFound }
    ensures same { SameIsDamage }
{}

/// Which of two disks' files counts is chosen by the begin of each disk alone.
pub fn chooses_by_the_begin_of_each()
    ensures one { OneIsChosen }
    ensures fronts { FrontsChoose }
    ensures worked { ChoiceIsWorked }
{}
