//! Specification files made at random.

/// Specification files made at random, each with what a reader is to make of it behind a `$`; between two of them stands an `@`.
pub const RANDOM_FILES: &[u8] = b"\
assume G(b -> N N b)\r\noutputs c\r\ngoal WX b |\tc\r\ninputs a b\r\nfirst environment\r\n$ltlf / environment / 2 / 1 / a,b,c / G (b -> N N b) / (N b | c) / 1024 / no / -@\
version 2\nassume  !(  c\t<-> c)<->  G b\ninputs a b c d\nirst agent\noutputs \ngoal (G(b\tU c)\t)\nduty   b\t| b$line 4: unknown key@\
version 2\ngoal   X  a\t<->a\noutputs a\ninputs \nfirst agent\ngoal F X(  (a U a ) R true)\n$ltlf / agent / 0 / 1 / a / - / ((X a <-> a) & F X ((a U a) R true)) / 1024 / no / -@\
version 2\noutputs \nfirst environment\ngoa  ~( (\ta<->a\t) &&a\tR  a R\tlast)\ninputs a\n  \n$line 4: unknown key@\
inputs a\nassume !a | N c\noutputs b c d\ngoal X(c U  F a ||\t(  c  <->b ) U false)\nfirst environment\n$ltlf / environment / 1 / 3 / a,b,c,d / (!a | N c) / X ((c U F a) | ((c <-> b) U false)) / 1024 / no / -@\
version 2\ngoal   [{a }  ] ~ff \ninputs \nassume <\t(\ttrue? ) >end \ndialect ldlf\ngoal [ a\t? ]a \nfirst environment\n$missing outputs@\
first agent\n\toutputs  \ninputs a\ngoal  ! (G F ! ((a\t)= U a ||  a ) ) \n$line 4: bad byte at 21@\
version 2\ndialect ldlf\nduty <\tc\t? > d\ngoal ( <{ last }* >  a\nfirst environment\noutputs b c d\ngoal  a\n$missing inputs@\
version 2\nassume  (  b -> b  ) \nassume \tF WX G\t(  b)\ninputx a b\ngoal X( (\ta))\nfirst agent\noutputs \n$line 4: unknown key@\
version 1\ngoal  ( ~ < a>  a )\ninputs a\noutputs \ndialect ldlf\nfirst environment\nassume  ~ [a ] (\t[a? ]  (a)  ) \n$ldlf / environment / 1 / 0 / a / ![a][a?]a / !<a>a / 1024 / no / -@\
first agent\noutputs b\ndialect ltlf\ngoal  !  N ( a && ( a)-> a\t)\n# note\ninputs a\n$ltlf / agent / 1 / 1 / b,a / - / !N ((a & a) -> a) / 1024 / no / -@\
limit 4\nassume  (\tF\ttrue  U  false )\ninputs \ngoal \tX( 0 )R  ( a-> x\nfirst agent\noutputs a\n$line 4: bad byte at 10@\
version 2\ngoal F X( a )\noutputs a\ninputs \nempty no\nfirst environment\n$ltlf / environment / 0 / 1 / a / - / F X a / 1024 / no / -@\
version 1\noutputs \ninputs a\ngoal   WX true\tU ~ ( a<->\ta |  F a)$missing first@\
inputs \nassume \t~\t(X a<->a  ) \ngoal  N (  a R( X a||last ))\nfirst agent\noutputs a\n$ltlf / agent / 0 / 1 / a / !(X a <-> a) / N (a R (X a | N false)) / 1024 / no / -@\
versi\tg 1\nfirst agent\noutputs a\ninputs \ngoal \tWX(~ a)\nassume last\n$line 1: unknown key@\
inputs \ndialect ldlf\ngoal   ff  && [ ( a )\t]  [\t(\ta )\t]a\nfirst agent\noutputs a\n$ldlf / agent / 0 / 1 / a / - / (false & [a][a]a) / 1024 / no / -@\
first agent\ndialect ldlf\ninputs a\noutputs b\ngoal  ( <  { b }\t? +\ta> <b> b\t)\n$ldlf / agent / 1 / 1 / b,a / - / <(b? + a)><b>b / 1024 / no / -@\
version 2\ngoal F( a )\n  goal   F  N\ta \ninputs a\nassume \tN F((a) ||\tff )\noutputs b\nfirst agent\n$ltlf / agent / 1 / 1 / b,a / N F (a | false) / (F a & F N a) / 1024 / no / -@\
outputs \ninputs a\nassume G(F( (\ta )  &&a))\ngoal (G( a & a  ) )\tU\tX\t(\ttt  R a) \nfirst agent\n$ltlf / agent / 1 / 0 / a / G F (a & a) / (G (a & a) U X (true R a)) / 1024 / no / -@\
version 2\n\tempty yes \noutputs \ngoal X( false )\ngoal \ta R  a\nfirst =gent\nassume G(!\ta)\ninp0ts a$line 6: bad value@\
version 2\nfirst agent\ninputs a b\ngoal F(c R(  a\t) )\ngoal  (  G(c <-> c\t) )\noutputs c\n$ltlf / agent / 2 / 1 / c,a,b / - / (F (c R a) & G (c <-> c)) / 1024 / no / -@\
version 1\ninputs a\ngoal F( X\t(  (\t(\tb) U a)  R\ta ||( a )) )\n  first environment \noutputs b\n$ltlf / environment / 1 / 1 / a,b / - / F X (((b U a) R a) | a) / 1024 / no / -@\
version 2\nfirst agent\ninputs \n  dialect ltlf \ngoal F X((\tF( last <->  true )  ))\noutputs a\n\tempty no \ngoal  a\n$ltlf / agent / 0 / 1 / a / - / (F X F (N false <-> true) & a) / 1024 / no / -@\
version 2\noutputs \nassume a U||  ( WX b\ngoal  (Y ( F  a ) |b )\t)\ninputs a b\nfirst environment\nassume G(last U N\ta )\n$line 3: unexpected token at 11@\
version 2\noutputs a\ninputs \nfirst agent\nduty   <a\ngoal < (  a) > a\t-> ||  a\nlimit 0\ndialect ldlf\ngoal <\ta? > end \n$line 7: bad value@\
dialect ldlf\ninputs a\noutputs \ngoal  ~< ( ff * )*>  ( [{  a }]\ta)\n  first agent $ldlf / agent / 1 / 0 / a / - / !<(false*)*>[a]a / 1024 / no / -@\
first environment\ninputs a\nout\tuts \ngoal N!  ( WX (  a) )$line 3: unknown key@\
inputs a\r\n\r\ndialect ldlf\r\nfirst environment0\noutputs b\r\ngoal   ( [a\t? ]  (ff)\t)\r\n$line 4: bad value@\
inputs a b c\nfirst environment\noutputs \ngoal  ((c  <->false\t<->  a  ) | G ( b\t&b)\t)|a\n$ltlf / environment / 3 / 0 / a,b,c / - / (((c <-> (false <-> a)) | G (b & b)) | a) / 1024 / no / -@\
version 2\noutputs \nduty G(\tN F  tt)\nduty \t(  ! G (\tX a  ->\nfirst agent\ninputs a\ngoal \t( !(  a | ( a->(a&&  a\t)\t))\t)\n$line 4: unfinished@\
outputs \n #\ngoal [  b  ] tt&& ~ (  [\t{||\t}? ] b -> a )\n  dialect ldlf \nfirst environment\ninputs a b$line 3: unexpected token at 27@\
inputs a b\ngoal \ta\ndialect ldlf\nfirst environment\nlimit 1\noutputs \n$ldlf / environment / 2 / 0 / a,b / - / a / 1 / no / -@\
first agent\nversion 2\noutputs \nempty no\ngoal X(~ F  (  a U( a ->  (! 0 (ff)<-> a ))\t) )\n\tinputs a \nfirst #gent\n$line 2: unknown key@\
outputs a b c\ngoal \t((b  )\t<-> (last  ))\ninputs \nfirst environment\n$ltlf / environment / 0 / 3 / a,b,c / - / (b <-> N false) / 1024 / no / -@\
version 1\ninputs \noutputs a\nfirst agent\ngoal  !  (a  | <a?* > a )\nlimit 1\n$line 5: bad byte at 16@\
inputs a\noutputs \nssume < { a} >!( [ a ?]  a) \n\ngoal   <  {\t~ !(\ta  <->  tt) }\t>a\nfirst agent\n\tdialect ldlf \n$line 3: unknown key@\
version 2\nfirst agent\ngoal   b\ninputs \nlimit 3\ngoal F X(\t(a <-> d\tR X a))\noutputs a b c d\nassume G( ( G F( G d  ) ))\n$ltlf / agent / 0 / 4 / a,b,c,d / G G F G d / (b & F X (a <-> (d R X a))) / 3 / no / -@\
first environment\noutputs b\ngoal    b * ; b\t] (\t[  a;(b )]  <\ttt >a\t)\nassume  a\ndialect ldlf\ninputs a\n$line 3: unexpected token at 11@\
version 2\ngoal b U WX  (\ta-> (b) )\nfirst environment\ninputs \n=utp0ts a b\ngoal a$line 5: unknown key@\
version 2\nempty yes\ngoal  b R\ta\nassume   !  ( a  )\nfirst agent\noutputs \ninputs a b\nassume G(G(\tb\t<->a  ) <->  false )\n$ltlf / agent / 2 / 0 / a,b / (!a & G (G (b <-> a) <-> false)) / (b R a) / 1024 / yes / -@\
vexsion 2\nduty  tt\ngoal \ta \ninputs a\nfirst agent\noutputs \ndialect ldlf\n$line 1: unknown key@\
goal X F F  (WX false)\nfirst environment\n  assume   X\tX F(true U tt\t) \ninputs \noutputs a b c$ltlf / environment / 0 / 3 / a,b,c / X X F (true U true) / X F F N false / 1024 / no / -@\
goal ! N (  (\tb U b  <-> X b)\tR  b\nversion 2\nfirst environment\noutputs b\ninputs a\n$line 2: unknown key@\
first environment\n# note\noutputs \ninputs a\ngoal a\n$ltlf / environment / 1 / 0 / a / - / a / 1024 / no / -@\
goal F( G\t(~ a ))\r\nfirst environment\r\nassume G( a\t|F (\ta ))\r\noutputs \r\ninputs a\r\n$ltlf / environment / 1 / 0 / a / G (a | F a) / F G !a / 1024 / no / -@\
inputs a b\r\nassume G(F(  b R X  b ))\r\ngoal  ( (\t(  X a\t)->  b) R (\tN\tb  -> a\t&  a)  )\r\nutputs \r\nfirst environment\r\n$line 4: unknown key@\
\x20 version 2 \nempty no\noutputs a\nduty a\n  first agent \ninputs \ngoal \tN ((a|\t( last))U a) \ngoal   G WX a\n$ltlf / agent / 0 / 1 / a / - / (N ((a | N false) U a) & G N a) / 1024 / no / a@\
version 2\r\noutputs \r\nfirst environment\r\nempty no\r\nlimit 3\r\ngoal X F( ( a\tU N(a |  WX a )  )\tR  a )\r\ninputs a\r\n  \r\n$ltlf / environment / 1 / 0 / a / - / X F ((a U N (a | N a)) R a) / 3 / no / -@\
goal   F( c)R ~\t( =a\t-> true  ) ->\tN\tF  b )\noutputs \ninputs a b c\nassume  ( X  ( b )|c  ) <->\ta\nlimit 1024\nfirst agent\n$line 1: bad byte at 19@\
assume G(a )\nfirst environment\ninputs \noutputs a\n$missing goal@\
dialect ldlf\ninputs a\ngoal  false\noutputs \nfirst environment\nassume <\ta\t* >a &\t(  a )\n$ldlf / environment / 1 / 0 / a / (<a*>a & a) / false / 1024 / no / -@\
version 2\nfirst environment\ngoal   X N ( a| tt)\ninputs \n\toutputs a b c \ngoal  c ->  b$ltlf / environment / 0 / 3 / a,b,c / - / (X N (a | true) & (c -> b)) / 1024 / no / -@\
version 2\ngoal F( F a )\nempty no\ninputs \nduty N a| a\noutputs a\nfirst environment\nduty G(  (  a<->N  X last\t)R a)\n$ltlf / environment / 0 / 1 / a / - / F F a / 1024 / no / ((N a | a) & G ((a <-> N X N false) R a))@\
outputs \nfirst agent\ndialect ldlf\ngoal <\t(  a ?)  >a\nlimit 6\nassume  [(  a ?); {  a }\t? ]\tff\ninputs a$ldlf / agent / 1 / 0 / a / [(a? ; a?)]false / <a?>a / 6 / no / -@\
goal F(a)\noutputs a\ninputs \nfirst agent\n$ltlf / agent / 0 / 1 / a / - / F a / 1024 / no / -@\
version 2\ndialect ldlf\noutputs a\nempty no\ngoal   ~  ( a&&a) \nfirst environment\nassume \t!ff\ninputs \n$ldlf / environment / 0 / 1 / a / !false / !(a & a) / 1024 / no / -@\
assume G(a & d -> N G !a)\ninputs a b\ngoal b\nfirst environment\noutputs c d\n$ltlf / environment / 2 / 2 / a,b,c,d / G ((a & d) -> N G !a) / b / 1024 / no / -@\
version 2\n\tempty no \nfirst agent\ngoal \tF X a\ninputs \noutputs a\ngoal  a\n$ltlf / agent / 0 / 1 / a / - / (F X a & a) / 1024 / no / -@\
first agent\n  \ninputs a\ngoal   a&&( [{(a  )}  ]b)\nassume b\n\tdialect ldlf \noutputs b\n$ldlf / agent / 1 / 1 / b,a / b / (a & [a]b) / 1024 / no / -@\
version 2\ninputs a b\nempty no\nfirst environment\ngoal  G(b&\tc )\noutputs c\ngoal F X( c )\n$ltlf / environment / 2 / 1 / a,b,c / - / (G (b & c) & F X c) / 1024 / no / -@\
inputs \r\nfirst agent\r\ngoal F( a <-> X X !a)\r\nassume G( (F true  )  U\t!  (  false  ))\r\noutputs a\r\n$ltlf / agent / 0 / 1 / a / G (F true U !false) / F (a <-> X X !a) / 1024 / no / -@\
version 2\nfirst agent\ndialect ltlf\ngoal \tN\t(X  (X G  a  -> (true )))\noutputs a b\ninputs \n$ltlf / agent / 0 / 2 / a,b / - / N X (X G a -> true) / 1024 / no / -@\
goal F(a)\ninputs \nfirst agent\noutputs a b c\n$ltlf / agent / 0 / 3 / a,b,c / - / F a / 1024 / no / -@\
first agent\noutputs \n  inputs a b \ndialect ldlf\nassume  <\ttt  >( <\ta?>a\t) \ngoal  [a\t; b ?]<{  b}\t>a\n$ldlf / agent / 2 / 0 / a,b / <true><a?>a / [(a ; b?)]<b>a / 1024 / no / -@\
version 2\nfirst environment\ndialect ldlf\nassume   a\ninputs a b\noutputs c\ngoal  b& (( < \ngoal  a\nempty yes\n$line 7: unfinished@\
# note\nversion 2\noutputs \nfirst environment\ninputs a b c\nassume  b<-> a\nlimit 0\ngoal G( !F G last\tR c  U\ta ) \n$line 7: bad value@\
outputs \r\n  goal (N b ) \r\nfirst environment\r\n\tinputs a b \r\n$ltlf / environment / 2 / 0 / a,b / - / N b / 1024 / no / -@\
version 2\nfirst agent\ninputs a\ngoal F(  a)\noutputs \n$ltlf / agent / 1 / 0 / a / - / F a / 1024 / no / -@\
version 2\ngoal X F(( d )| b)\noutputs \ninputs a b c d\nfirst environment\ngoal  G (G a U a\t)\nduty   F  N false \nempty no\n$ltlf / environment / 4 / 0 / a,b,c,d / - / (X F (d | b) & G (G a U a)) / 1024 / no / F N false@\
goal (\tX\ta  )\nfirst agent\ninputs \noutputs a\nlimit 4\n$ltlf / agent / 0 / 1 / a / - / X a / 4 / no / -@\
version 2\n  limit 4 \n  outputs  \ngoal  G(b  ->  a  ) \ninputs a b\n  goal X(( a )) \nfirst agent\n$ltlf / agent / 2 / 0 / a,b / - / (G (b -> a) & X a) / 4 / no / -@\
version 2\nempty yes\ngoal  ( <ff ?  >a  ) || a \ninputs \ndialect ldlf\ngoal   a\noutputs a\nfirst environment$ldlf / environment / 0 / 1 / a / - / ((<false?>a | a) & a) / 1024 / yes / -@\
version 2\nutputs \n  inputs a \ngoal   G((a U( a\t) ) U  a )\nfirst environment\nassume  (\tN F\ta)\n$line 2: unknown key@\
version 2\nassume  b\tR  ( b  )\t| X b\noutputs \nassume G(c <-> ff)\nfirst environment\ngoal b  <-> a\ninputs a b c$ltlf / environment / 3 / 0 / a,b,c / (((b R b) | X b) & G (c <-> false)) / (b <-> a) / 1024 / no / -@\
inputs a\ngoal  c\nfirs0 agent\nassume \t(\ta) &\t( a)\n  outputs b c \n$line 3: unknown key@\
# note\noutputs b\ngoal F X(\t(  (\tb) U F b\t))\nfirst agent\ninputs a\n$ltlf / agent / 1 / 1 / b,a / - / F X (b U F b) / 1024 / no / -@\
version 2\nfirst environment\ninputs \ngoal X F( (( tt -> false  R true )->tt ))\ngoal  <->  true\nutputs \n$line 6: unknown key@\
assume  ! ((\tX WX\t( a  ))<->b) \noutputs a b\ngoal X F(\t0ast\t->(a\t<-> X ! (ff  ->a)\t))\ninputs \n\tfirst ag\tnt \n$line 5: bad value@\
version 2\ngoal   a\ngoal (b) \ninputs a b\nassume G(  b\t|\ta)\noutputs \nfirst agent\n$ltlf / agent / 2 / 0 / a,b / G (b | a) / (a & b) / 1024 / no / -@\
version 2\nempty yes\ninputs a\ngoal (\ta  ) U(\ta| a )\noutputs \nassume G( N(a\t))\ngoal \tF tt S\nfirst environment 1\n$line 8: bad value@\
goal WX  X\ta\nfirst age0t\ninputs \noutp0ts a b\n$line 2: bad value@\
outputs b\ndialect ldlf\nfirst agent\ninputs a\ngoal \t< a > b | b \n$ldlf / agent / 1 / 1 / b,a / - / (<a>b | b) / 1024 / no / -@\
# note\nversion 2 1\nempty yes\ngoal \t~\noutputs a\nfirst agent\ninputs \nduty G(  X(  N  a| a &  a))\ndialect ltlf\n$line 2: bad value@\
version 2\ngoal G(a&&\tb R a ) \nfirst agent\ninputs a\nassume \t!  N X\ta \ngoal a U F b\noutputs b\n$ltlf / agent / 1 / 1 / b,a / !N X a / (G (a & (b R a)) & (a U F b)) / 1024 / no / -@\
inputs \ngoal a \nfirst agent\noutputs a\nassume  !(F\t(a R\t(  X\ttt) ) )\n$ltlf / agent / 0 / 1 / a / !F (a R X true) / a / 1024 / no / -@\
outputs a\ninputs \ngoal   tt\nfirst agent\n$ltlf / agent / 0 / 1 / a / - / true / 1024 / no / -@\
first agent\ninputs a\ngoal  F\tX b->\tX G (ff->  last ) \noutputs b\nassume G(a -> N N a)\n$ltlf / agent / 1 / 1 / b,a / G (a -> N N a) / (F X b -> X G (false -> N false)) / 1024 / no / -@\
version 2\ngoal F( a->G b)\nfirst environment\nduty G(  G  a )\ninputs \noutputs a b\nassume G(\t! ( a || a R F a\t))\n$ltlf / environment / 0 / 2 / a,b / G !(a | (a R F a)) / F (a -> G b) / 1024 / no / G G a@\
first environment\n# note\ninputs \n  outputs a b c \nassume G(  X( false ) )\ngoal X(\t(F X X c ))\n$ltlf / environment / 0 / 3 / a,b,c / G X false / X F X X c / 1024 / no / -@\
limit 4096\nversion 2\noutputs a\ngoal F( G  a U a)\nfirst environment\ninputs \n\ngoal \ta&F (a )\nduty G( a U  a|a)$line 1: bad value@\
version 2\noutputs \nassume tt \n  first agent \ngoal F(  (ff  )\tR b )\ninputs a b\n$ltlf / agent / 2 / 0 / a,b / true / F (false R b) / 1024 / no / -@\
version 2\noutputs a\nfirst agent\nempty yes\ninputs \ngoal  a||a\n$ltlf / agent / 0 / 1 / a / - / (a | a) / 1024 / yes / -@\
\x20#\nversion 2\nfirst agent\noutputs a b\ndialect ltlf\ninputs \ng al F b |!(  tt||! a R a ) \n$line 7: unknown key@\
version 2\noutputs a\ngoal X(  !a )\nirst agent\ninputs \ngoal X\n$line 4: unknown key@\
first agent\ngoal  < b> [ { ( a ) }\t] b\ninputs a\noutputs b\nassume  [  { [{ a  }] [true\t]ff}  ?\t] b\n\n$line 5: bad byte at 9@\
version 1\ndialect past\ninputs \noutputs a b\n  \ndialect ldlf\ngoal ! !\t< ( b )> [  {[a\t? *](a) }\t?]b \nfirst agent\n$line 2: bad value@\
outputs b\n  \ngoal  (\tX ) ( |\t&& a  |  ( b))  )\ninputs a\nirst agent\n$line 5: unknown key@\
version 2\r\ngoal  F F~(( (\ta )\t<->a\t) U a ) \r\n\tassume   false \r\noutputs a\r\ninputs \r\nfirst environment\r\n$ltlf / environment / 0 / 1 / a / false / F F !((a <-> a) U a) / 1024 / no / -@\
goal X F(  (X (\t(\tff) -> a ) )  <-> a ->\ta)\r\n\toutputs  \r\ninputs a\r\n  first environment 1 \r\n$line 4: bad value@\
outputs c\ninputs a b\nfirstxagent\ngoal X F(\tc\t->b)\n$line 3: unknown key@\
first environment\r\noutputs \r\n\tinputs a \r\n$missing goal@\
version 2\r\n  goal  < b * > b \r\ninputs a\r\noutputs b\r\nfirst agent\r\ndialect ldlf\r\n$ldlf / agent / 1 / 1 / b,a / - / <b*>b / 1024 / no / -@\
assume G( F last R(\tc  ) )\ngoal b  <->\t(  b)\tR N ( c& ( b)) \noutputs \nfirst agent\ninputs a b c\n$ltlf / agent / 3 / 0 / a,b,c / G (F N false R c) / (b <-> (b R N (c & b))) / 1024 / no / -@\
version 2 a\ninputs a\ngoal a R ( last )\tR  X  a\nfirst agent\noutputs \n$line 1: bad value@\
version 1\nfirst environment\ngoal F X( (\tff\t) R(  a\t)  <->\ta )\nassume G a &  X\tF false \noutputs a\ninputs \n$ltlf / environment / 0 / 1 / a / (G a & X F false) / F X ((false R a) <-> a) / 1024 / no / -@\
limit 4\ninputs a\nassume G(\t( ff&&b)U true)\nfirst environment\noutputs b\ngoal \tX F ( (  a<->\ta&& b  )R b\t) \n$ltlf / environment / 1 / 1 / a,b / G ((false & b) U true) / X F ((a <-> (a & b)) R b) / 4 / no / -@\
version 2\nfirst agent\ninputs \n# note\ndialect ltlf\noutputs a\ngoal (G  a->\ta  )  U(\ta-> a) \nempty no$ltlf / agent / 0 / 1 / a / - / ((G a -> a) U (a -> a)) / 1024 / no / -@\
version 1\nfirst agent\noutputs \ngoal X(a||  ( a->\ta ) )\nlimit 1024\ninputs a\n$ltlf / agent / 1 / 0 / a / - / X (a | (a -> a)) / 1024 / no / -@\
version 2\nassume G(F (WX b->b  ))\noutputs \nfirst agent\ninputs a b\ngoal  b \n$ltlf / agent / 2 / 0 / a,b / G F (N b -> b) / b / 1024 / no / -@\
version 2\ngoal !\tF((  a  ) <->  ( true\t)  )\ngoal  a \noutputs \ninputs a\nfirst environment\n$ltlf / environment / 1 / 0 / a / - / (!F (a <-> true) & a) / 1024 / no / -@\
outputs \ninputs a b\ninputs a b\nfirst environment\ngoal \tX! a\nassume !(a  <-> b <->b)\n$line 3: repeated key@\
# note\nversion 2\nfirst environment\noutputs \ngoal  ~  (< {a}  >\ta <->( ff )  ) \ninputs a b\ndialect ldlf\n$ldlf / environment / 2 / 0 / a,b / - / !(<a>a <-> false) / 1024 / no / -@\
version 2\noutputs \noal F(\tF\t(( c) U\tb) )\nfirst agent\ninputs a b c\ngoal X(  c&&\t&\ta)\n$line 3: unknown key@\
version 2\nfirst environment\nduty  a U  a ||  a\ninputs \ngoal \t~\tF  ( a R a\t)\nempty no\noutputs a\nduty ( X\ta\t)\n$ltlf / environment / 0 / 1 / a / - / !F (a R a) / 1024 / no / (((a U a) | a) & X a)@\
first environment\ndialect ldlf\ninputs a\ngoal  [a;(b) * ] [ b ] a\noutputs b\n$ldlf / environment / 1 / 1 / a,b / - / [(a ; b*)][b]a / 1024 / no / -@\
first environment\r\ngoal F(  F~X\ta<-> a )\r\ninputs a\r\noutputs \r\n$ltlf / environment / 1 / 0 / a / - / F (F !X a <-> a) / 1024 / no / -@\
first environment\noutputs \ngoal\ninputs \ngoal N (N(true &false)<->G tt  )\nassume  ff\n$line 5: repeated key@\
version 2\nfirst agent\noutputs b\ngoal (  a  )&a\nduty   (  a\tU a)\nassume G( false <->  ff  ->  true)\n #\ninputs a\n$ltlf / agent / 1 / 1 / b,a / G (false <-> (false -> true)) / (a & a) / 1024 / no / (a U a)@\
first agent\ngoal (( a ) &&X X  !( b  U b  ) )\ninputs \noutputs a b c\n$ltlf / agent / 0 / 3 / a,b,c / - / (a & X X !(b U b)) / 1024 / no / -@\
first agent\ngoal F( tt U(b ))\ninputs a b\n  outputs c \n$ltlf / agent / 2 / 1 / c,a,b / - / F (true U b) / 1024 / no / -@\
version 2\nassume   F~a \ngoal  a R a\nfirst environment\ninputs a\noutputs \n$ltlf / environment / 1 / 0 / a / F !a / (a R a) / 1024 / no / -@\
outputs \r\nassume X(  (  ( a)&  (  a\t) )R\tN false) \r\ninputs a\r\nfirst agent\r\ngoal X F( (  true &(\tN a| a )))\r\n$ltlf / agent / 1 / 0 / a / X ((a & a) R N false) / X F (true & (N a | a)) / 1024 / no / -@\
inputs a\ngoal F(a  (b)x\n  first agent \n$missing outputs@\
version 1\r\nfirst environment\r\ngoal X F(\tN  (\n(a\t) U a))\r\noutguts \r\ndialect ltlf\r\n  inputs a \r\n$line 4: unknown key@\
inputs \nlimit 4\ngoal (  ( G( X (  false R G\tG( a)\t) )) <-> a  )\noutputs a\nssume G( ( true  ) ->false )\nfirst agent\n$line 5: unknown key@\
version 1\ngoal   ~ ( last )\t&\t(a|\ttt )\nfirst agent\nlimit 6\noutputs \ninputs a$ltlf / agent / 1 / 0 / a / - / (!N false & (a | true)) / 6 / no / -@\
version 2\nfirst agent\ndialect ltlf\ninputs a b\ngoal WX G  (b U X  a)\n  outputs  \n$ltlf / agent / 2 / 0 / a,b / - / N G (b U X a) / 1024 / no / -@\
version 2\r\nlimit 1024\r\nempty yes\r\n #\r\nfirst agent\r\ninputs a\r\noutputs b\r\r\ngoal   F X( X a\t)\tR b \r\ngoal a U b->\ta \r\n$line 7: bad name@\
version 2\nassume   (X (ff& a)  )\ngoal F( (b <-> G  last )&  WX N( a))\noutputs b\nfirst agent\n #\ninputs a\n$ltlf / agent / 1 / 1 / b,a / X (false & a) / F ((b <-> G N false) & N N a) / 1024 / no / -@\
version 2\noutputs \ngoal F X(  F WX\tX N\t(false  ))\nfirst environment\ninputs a b\n$ltlf / environment / 2 / 0 / a,b / - / F X F N X N false / 1024 / no / -@\
\tinputs  \nassume  true\nfirst environment\noutputs a b\ngoal  G G F(\t(b U ( G b ))\tU b  )\n$ltlf / environment / 0 / 2 / a,b / true / G G F ((b U G b) U b) / 1024 / no / -@\
version 2\ngoal X(\t!  ( X b ))\ndialect ltlf\nnputs a\nlimit 4\ngoal X(b )\nfirst environment\noutputs b\n$line 4: unknown key@\
version 1\ninputs a\nlimit 1\ngoal X( ff)\nfxrst=agent\noutputs \n$line 5: unknown key@\
goal  ( < b +a?  >\tb\t)\nassume  ([( a ?  )] b\t)\nfirst environment\ninputs a\ndialect ldlf\noutputs b\n$ldlf / environment / 1 / 1 / a,b / [a?]b / <(b + a?)>b / 1024 / no / -@\
outputs \ngoal ( c &[c ]  x c\t) )&  (<  {false }  ? >  ( < { c } > a ))\ndialect ldlf\ninputs a b c\nfirst agent\n$line 2: undeclared name at 17@\
version 2\r\nfirst environment\r\nversion 1\r\ngoal (\ta  <-> a)\r\noutputs a\r\n  inputs  \r\n$line 3: repeated key@\
go=l F(  a )\nfirst envirgnment\ninputs a b\noutputs \n$line 1: unknown key@\
assume \t(  X a U tt  )-> F a\noutputs \ninputs a\ngoal  a U  a-> tt \nfirst agent\n$ltlf / agent / 1 / 0 / a / ((X a U true) -> F a) / ((a U a) -> true) / 1024 / no / -@\
version 2\noutputs a\nfirst agent\ninputs \ngoal  (  ~ (a &&! (  ( a\t<->a  ) <->a ) ))x\nassume G(ff  U)\n$line 6: unexpected token at 15";
