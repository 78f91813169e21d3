//! What is true of the texts of configurations.
ghost use Rattle.rambo_names.specs.Signs.{OneConf, EvenIsSet};

/// No text is that of two configurations.
pub fn one_conf()
    ensures { OneConf }
{}

/// Where all members have weight 1 the text is that of their set.
pub fn even_is_set()
    ensures { EvenIsSet }
{}
