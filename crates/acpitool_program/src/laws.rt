//! Laws of words, and of tables that are repaired. Each function is a law: it does nothing, and its `ensures` states the law.

ghost use Rattle.acpitool_program.specs.Laws.{AskForOne, SoundStay, WrongAskForNothing};

/// Words ask for at most one command.
pub fn ask_for_one()
    ensures { AskForOne }
{}

/// Words that are wrong ask for no command.
pub fn wrong_ask_for_nothing()
    ensures { WrongAskForNothing }
{}

/// What is sound already stays as it is when it is repaired.
pub fn sound_stay()
    ensures { SoundStay }
{}
