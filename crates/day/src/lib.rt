// A day in symbol ABC: the lettered cases of document 01, as rows under one claim. No code stands here.

#![tactic(auto)]
