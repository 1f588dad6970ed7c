// Laws of the definitions of `model`, which stand on no engine: specs only. What they say is proved; the pages to believe are the model's.
#![tactic(auto)]
