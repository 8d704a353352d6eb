ghost use Rattle.ibx_dis.specs.Laws.{ListsItsFile};

/// What holds of the text of each file that is made of code.
pub fn laws_of_listings()
    // The text assembles to the code, so that the file around it is the same again.
    ensures lists_its_file { ListsItsFile }
{}
