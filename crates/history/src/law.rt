//! The law of a book's life.
ghost use Rattle.history.specs.Facts.{EveryBookFact};
ghost use Rattle.history.specs.Laws.{EveryBook, EveryCall};

/// Every book that has a history behind it keeps the law, under every lawful valuation.
pub fn every_book_keeps_the_law()
    ensures books { EveryBook }
    ensures calls { EveryCall }
{}

/// Every book that has a history behind it keeps these facts too, under every lawful valuation.
pub fn every_book_keeps_these_facts()
    ensures { EveryBookFact }
{}
