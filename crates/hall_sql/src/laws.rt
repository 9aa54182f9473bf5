//! The law of the statements, the contract of a function that does nothing.
ghost use Rattle.hall_sql.specs.Laws.{AskOfPeople, AskOfPuzzles, AskOfRounds, AskOfPlaces, AskOfTesters};
ghost use Rattle.hall_sql.specs.Laws.{AskOfAnswers, AskOfProtests, AskForRowids};

/// What each query asks of the tables, and what each statement that writes does to them: which rows, by which columns
/// and parameters, in which order, and which values. A contract that names the text of a statement speaks of that. (The
/// statements that make the tables are not among them: the schema that each call wants says what they made.)
pub fn law_statements()
    ensures people { AskOfPeople }
    ensures puzzles { AskOfPuzzles }
    ensures rounds { AskOfRounds }
    ensures places { AskOfPlaces }
    ensures testers { AskOfTesters }
    ensures answers { AskOfAnswers }
    ensures protests { AskOfProtests }
    ensures rowids { AskForRowids }
{}
